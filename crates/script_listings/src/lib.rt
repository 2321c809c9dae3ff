// The order on a whole buffer: what the plain reader lists of it (docs/SCRIPTS.md, `plain`).
#![tactic(auto)]

ghost use Rattle.std.specs.Prelude.{◌≤◌};
ghost use Rattle.reader.specs.Plain.{plain};
ghost use Rattle.script_words.specs.Words.{bytes_at};
ghost use Rattle.script_text.specs.Puts.{Puts};
ghost use Rattle.script_answers.specs.Answers.{Answers, writes};
ghost use Rattle.script_listings.specs.Listings.{entry_text, listed_text, end_text, plain_text};
ghost use Rattle.script_listings.specs.Bounds.{Within};

use panels::DisplayBox;
use reader::{Listing, read_plain};
use script_answers::{Answered, ended};
use script_text::{put, put_number_text};
use script_words::bytes_at;

// An entry: its start and its length.
fn put_entry(out: &mut [u8], at: usize, start: usize, length: usize) -> usize
    requires { (start ≤ 1024) × (length ≤ 1024) }
    ensures { Puts (entry_text start length) out.old at out.new result }
{
    let to = put_number_text(out, at, b" ", start as u32);
    put_number_text(out, to, b":", length as u32)
}

// The entries, one behind the other.
fn put_entries(out: &mut [u8], at: usize, l: &Listing) -> usize
    requires { Within 1024 l.now }
    ensures { Puts (listed_text l.now) out.old at out.new result }
{
    let mut to = at;
    for i in 0..l.count {
        to = put_entry(out, to, l.starts[i], l.lengths[i]);
    }
    to
}

// Where the list ends, or the reader stopped.
#[tactic(auto, using(std::proofs::lemmas::Bool::Decides::nat_tests), unfolding(crate::specs::Listings::end_text))]
fn put_end(out: &mut [u8], at: usize, l: &Listing) -> usize
    requires { Within 1024 l.now }
    ensures { Puts (end_text l.now) out.old at out.new result }
{
    let n = l.end as u32;
    match l.stopped {
        0 => put_number_text(out, at, b" end ", n),
        _ => put_number_text(out, at, b" stop ", n),
    }
}

// The whole list.
fn put_listing(out: &mut [u8], at: usize, l: &Listing) -> usize
    requires { Within 1024 l.now }
    ensures { Puts (plain_text l.now) out.old at out.new result }
{
    let a = put(out, at, b"plain");
    let e = put_entries(out, a, l);
    put_end(out, e, l)
}

pub fn answer_plain(b: DisplayBox, line: &[u8], out: &mut [u8]) -> Answered<DisplayBox>
    ensures { Answers (writes b (plain_text (plain (bytes_at 1 line.now)))) result out.old out.new }
{
    let mut bytes = [0u8; 1024];
    let n = bytes_at(line, 1, &mut bytes);
    let at = put_listing(out, 0, &read_plain(&bytes[..n]));
    ended(b, out, at)
}
