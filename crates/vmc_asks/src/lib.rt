// VMC: what the words of a packet's data ask, whatever the panel (document 01, "SDCP and VMC"; document 02, §2 and §5).
#![tactic(auto)]

ghost use Rattle.std.specs.Prelude.{◌≡◌, ◌≤◌};
ghost use Rattle.settings.specs.Table.{most_shift};
ghost use Rattle.setting_words.specs.Names.{chosen_by};
ghost use Rattle.vmc_asks.specs.Asks.{level_of, signed, shift_by, shift_order, value_order};
ghost use Rattle.vmc_asks.specs.Asks.{read_set, read_get, read_words, read_data, is_question, asks_status};

use decimals::plain_number;
use setting_texts::lead;
use setting_words::{chosen, led, named};
use settings::{LEVEL_COUNT, MOST_LEVEL, MOST_SHIFT, SETTING_COUNT};
use trimming::trim;

// What the words order or ask. The number is the name's: 0 to 20 are the settings, 21 and 22 SHIFTH and SHIFTV.
#[derive(Clone, Copy)]
pub enum Order {
    // STATset with a level or a choice: the setting and its value
    Set(usize, u8),
    // STATset SHIFTH (0) or SHIFTV (1)
    Shift(usize, i8),
    // STATset RESET
    Reset,
    // STATget
    Get(usize),
}

// "0 to 100 (no sign, no leading zero)": the number, or none.
fn level_of(s: &[u8]) -> Option<u8>
    ensures { result ≡ level_of s.now }
{
    let Some(v) = plain_number(s, MOST_LEVEL as u32) else {
        return None;
    };
    Some(v as u8)
}

// A choice's word: its place among the words, or none.
fn choice_of(k: usize, s: &[u8]) -> Option<u8>
    ensures { result ≡ chosen_by k s.now }
{
    let v = chosen(k, s)?;
    Some(v as u8)
}

// A size with its sign.
fn signed_of(minus: bool, size: u8) -> i8
    requires { size ≤ most_shift }
    ensures { result ≡ signed minus size }
{
    let size = size as i8;
    if minus { -size } else { size }
}

// A shift of at least so much and at most 30.
fn shift_by(axis: usize, minus: bool, least: u8, s: &[u8]) -> Option<Order>
    ensures { result ≡ shift_by axis minus least (level_of s.now) }
{
    let Some(n) = level_of(s) else {
        return None;
    };
    if !(least..=MOST_SHIFT as u8).contains(&n) {
        return None;
    }
    Some(Order::Shift(axis, signed_of(minus, n)))
}

// "-30 to +30 (sign allowed save before 0, no leading zero)."
fn shift_order(axis: usize, s: &[u8]) -> Option<Order>
    ensures { result ≡ shift_order axis s.now }
{
    if let Some(size) = s.strip_prefix(b"+") {
        return shift_by(axis, false, 1, size);
    }
    if let Some(size) = s.strip_prefix(b"-") {
        return shift_by(axis, true, 1, size);
    }
    shift_by(axis, false, 0, s)
}

// What the words behind name k ask. "A word that should be a number and is none ends the reading with 6": what the number reader gives
// is taken apart by let .. else ("List of forms by place").
fn value_order(k: usize, s: &[u8]) -> Option<Order>
    ensures { result ≡ value_order k s.now }
{
    if k < LEVEL_COUNT {
        let Some(v) = level_of(s) else {
            return None;
        };
        return Some(Order::Set(k, v));
    }
    if k < SETTING_COUNT {
        return Some(Order::Set(k, choice_of(k, s)?));
    }
    shift_order(k - SETTING_COUNT, s)
}

// The words behind STATset.
fn read_set(s: &[u8]) -> Option<Order>
    ensures { result ≡ read_set s.now }
{
    if s == b"RESET".as_slice() {
        return Some(Order::Reset);
    }
    let k = led(s)?;
    value_order(k, &s[lead(k).len()..])
}

// The words behind STATget.
fn read_get(s: &[u8]) -> Option<Order>
    ensures { result ≡ read_get s.now }
{
    let k = named(s)?;
    Some(Order::Get(k))
}

// What the words ask, if they are understood: any other data is 6.
fn read_words(d: &[u8]) -> Option<Order>
    ensures { result ≡ read_words d.now }
{
    if let Some(rest) = d.strip_prefix(b"STATset ") {
        return read_set(rest);
    }
    read_get(d.strip_prefix(b"STATget ")?)
}

// What the data asks: its words, without the end that some consoles give their strings (document 02, §2).
#[tactic(auto, unfolding(crate::specs::Asks::read_data))]
pub fn read_data(d: &[u8]) -> Option<Order>
    ensures { result ≡ read_data d.now }
{
    read_words(trim(d))
}

// "STATget alone or begins with STATget and a space", whatever follows.
fn is_question(s: &[u8]) -> bool
    ensures { result ≡ is_question s.now }
{
    s == b"STATget".as_slice() || s.starts_with(b"STATget ")
}

// Whether the data asks for a status, known or not: its words, without the end of their string.
#[tactic(auto, unfolding(crate::specs::Asks::asks_status))]
pub fn asks_status(d: &[u8]) -> bool
    ensures { result ≡ asks_status d.now }
{
    is_question(trim(d))
}
