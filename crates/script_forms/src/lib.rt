// Forms: a text with a number in the place of each `#` (docs/SCRIPTS.md).
#![tactic(auto)]

ghost use Rattle.std.specs.Prelude.{◌≡◌, get_or, drop};
ghost use Rattle.script_text.specs.Puts.{Puts};
ghost use Rattle.script_forms.specs.Forms.{numbers_text};

use script_text::{put, put_number};
use std::slice::Iter;

// The number of a mark: the first that is left, and it is left no more; 0 where there are no more.
fn next_number(left: &mut Iter<u32>) -> u32
    ensures value { result ≡ get_or left.old.rest.now 0 0 }
    ensures rest { left.new.rest.now ≡ drop 1 left.old.rest.now }
{
    left.next().copied().unwrap_or(0)
}

// A form, a number in the place of each `#`, 0 where there are no more.
pub fn put_numbers(out: &mut [u8], at: usize, form: &[u8], numbers: &[u32]) -> usize
    ensures { Puts (numbers_text form.now numbers.now) out.old at out.new result }
{
    let mut to = at;
    let mut left = numbers.iter();
    for x in form {
        to = if *x == b'#' {
            put_number(out, to, next_number(&mut left))
        } else {
            put(out, to, &[*x])
        };
    }
    to
}
