// The white balance in the line of a panel's record (docs/SCRIPTS.md, `show`).
#![tactic(auto)]

ghost use Rattle.script_text.specs.Puts.{Puts};
ghost use Rattle.script_balance.specs.Balance.{gains_text, bias_text, biases_text, balance_text};

use panels::Balance;
use script_forms::put_numbers;
use script_text::{put, put_signed};

fn put_gains(out: &mut [u8], at: usize, gains: [u16; 3]) -> usize
    ensures { Puts (gains_text gains) out.old at out.new result }
{
    let [r, g, b] = gains;
    put_numbers(out, at, b" GAIN # # #", &[r as u32, g as u32, b as u32])
}

// A bias behind a word.
fn put_bias(out: &mut [u8], at: usize, word: &[u8], z: i16) -> usize
    ensures { Puts (bias_text word.now z) out.old at out.new result }
{
    let to = put(out, at, word);
    put_signed(out, to, z)
}

fn put_biases(out: &mut [u8], at: usize, z: [i16; 3]) -> usize
    ensures { Puts (biases_text z) out.old at out.new result }
{
    let a = put_bias(out, at, b" BIAS ", z[0]);
    let b = put_bias(out, a, b" ", z[1]);
    put_bias(out, b, b" ", z[2])
}

pub fn put_balance(out: &mut [u8], at: usize, b: Balance) -> usize
    ensures { Puts (balance_text b) out.old at out.new result }
{
    let to = put_gains(out, at, b.gains);
    put_biases(out, to, b.biases)
}
