// VMC: the words that go back (document 01, "SDCP and VMC").
#![tactic(auto)]

ghost use Rattle.std.specs.Prelude.{◌≡◌, ◌≤◌, ◌++◌, length};
ghost use Rattle.decimals.specs.Decimals.{numeral};
ghost use Rattle.setting_texts.specs.Names.{lead_of, word_of};
ghost use Rattle.vmc_tells.specs.Phrases.{textual, spelled};
ghost use Rattle.vmc_tells.specs.Texts.{sign_of, shift_words, set_words};

use decimals::{Text, numeral_of};
use octets::lay;
use setting_texts::{lead, word};
use settings::LEVEL_COUNT;

// What an order is told: nothing, a setting's value, or a shift.
#[derive(Clone, Copy)]
pub enum Says {
    Bare,
    Value(usize, u8),
    Offset(usize, i8),
}

// A name with what parts it from its value, and the words of a value behind it.
fn phrase(k: usize, value: &[u8]) -> Text<20>
    requires { length value.now ≤ 7 }
    ensures { result ≡ textual (lead_of k ++ value.now) }
{
    let mut bytes = [0u8; 20];
    let name = lead(k);
    lay(&mut bytes, 0, name);
    lay(&mut bytes, name.len(), value);
    Text {
        bytes,
        len: name.len() + value.len(),
    }
}

// A level with its number.
fn spell_level(k: usize, v: u8) -> Text<20>
    ensures { result ≡ textual (lead_of k ++ numeral v) }
{
    phrase(k, numeral_of(v).as_slice())
}

// A choice with its word.
fn spell_choice(k: usize, v: u8) -> Text<20>
    ensures { result ≡ textual (lead_of k ++ word_of k v) }
{
    phrase(k, word(k, v as usize))
}

// A setting with its value.
fn spell_value(k: usize, v: u8) -> Text<20>
    ensures { result ≡ textual (set_words k v) }
{
    if k < LEVEL_COUNT {
        return spell_level(k, v);
    }
    spell_choice(k, v)
}

// The sign of a shift.
fn sign_of(z: i8) -> u8
    ensures { result ≡ sign_of z }
{
    match z {
        0.. => b'+',
        _ => b'-',
    }
}

// A shift with its sign, save 0.
fn spell_shift(k: usize, z: i8) -> Text<20>
    ensures { result ≡ textual (lead_of k ++ shift_words z) }
{
    if z == 0 {
        return phrase(k, b"0");
    }
    let size = numeral_of(z.unsigned_abs());
    let [a, b, c] = size.bytes;
    phrase(k, &[sign_of(z), a, b, c][..size.len + 1])
}

// The words of what is told.
pub fn spell(t: Says) -> Text<20>
    ensures { result ≡ spelled t }
{
    match t {
        Says::Bare => Text {
            bytes: [0; 20],
            len: 0,
        },
        Says::Value(k, v) => spell_value(k, v),
        Says::Offset(k, z) => spell_shift(k, z),
    }
}
