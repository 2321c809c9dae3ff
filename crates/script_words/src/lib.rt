// The words of a script's line: their kinds, and the numbers and bytes that they write (docs/SCRIPTS.md, "Lines").
#![tactic(auto)]

ghost use Rattle.std.specs.Prelude.{◌≡◌, suc, ◌*◌, ◌≤◌, length, get_or, drop};
ghost use Rattle.laws.specs.Bytes.{Sent};
ghost use Rattle.decimals.specs.Decimals.{up_to};
ghost use Rattle.script_words.specs.Words.{before, words_in, word_at, value_of, number_at, bytes_in, bytes_at};
ghost use Rattle.script_words.specs.Kinds.{is_number, is_family, is_link, is_kind, shaped};

use decimals::plain_number;
use script_hex::{hex_value, is_hex};

// What a word has to be: HEX, a family's letter, the link of a receiver, or an N that is at most so much.
#[derive(Clone, Copy)]
pub enum Kind {
    Hex,
    Family,
    Link,
    Number(u32),
}

// "N is [..] at most 4,294,967,295"
pub const ANY: u32 = 4294967295;

// "a reply area of AREA bytes (0 to 1,024)"
pub const AREA: u32 = 1024;

// How many bytes stand before the first c.
pub fn length_before(c: u8, s: &[u8]) -> usize
    ensures { (result ≡ length (before c s.now)) × (result ≤ length s.now) }
{
    s.iter().position(|b| *b == c).unwrap_or(s.len())
}

// Word k of a line; empty where the line has none.
pub fn word_at(line: &[u8], k: usize) -> &[u8]
    ensures { result.now ≡ word_at k line.now }
{
    line.split(|b| *b == b' ').nth(k).unwrap_or(b"".as_slice())
}

// The number that a word writes, 0 where it is none up to the most that is allowed.
fn number_in(w: &[u8], most: u32) -> u32
    ensures { result ≡ value_of (up_to most w.now) }
{
    plain_number(w, most).unwrap_or(0) as u32
}

// The number that word k writes.
#[tactic(auto, unfolding(crate::specs::Words::number_at))]
pub fn number_at(line: &[u8], k: usize, most: u32) -> u32
    ensures { result ≡ number_at most k line.now }
{
    number_in(word_at(line, k), most)
}

// The first letter of word k, 0 where it is empty.
pub fn letter_at(line: &[u8], k: usize) -> u8
    ensures { result ≡ get_or (word_at k line.now) 0 0 }
{
    word_at(line, k).first().copied().unwrap_or(0)
}

// Lays the bytes that pairs of hex digits write over the front of an area.
fn put_pairs(w: &[u8], area: &mut [u8]) -> usize
    requires { length w.now ≤ length area.old * 2 }
    ensures { Sent (bytes_in w.now) result area.old area.new }
{
    let n = w.len() / 2;
    for i in 0..n {
        area[i] = hex_value(w[i * 2]) * 16 + hex_value(w[i * 2 + 1]);
    }
    n
}

// Lays the bytes of HEX word k over the front of an area; none where the word is no HEX.
pub fn bytes_at(line: &[u8], k: usize, area: &mut [u8; 1024]) -> usize
    ensures { Sent (bytes_at k line.now) result area.old area.new }
{
    let word = word_at(line, k);
    if !is_hex(word) {
        return 0;
    }
    put_pairs(word, area)
}

// "its family (W or K)"
#[tactic(auto, unfolding(crate::specs::Kinds::is_family))]
fn is_family(w: &[u8]) -> bool
    ensures { result ≡ is_family w.now }
{
    w == b"W".as_slice() || w == b"K".as_slice()
}

fn is_number(w: &[u8], most: u32) -> bool
    ensures { result ≡ is_number (up_to most w.now) }
{
    plain_number(w, most).is_some()
}

// "LINK (1 to 8)"
#[tactic(auto, unfolding(crate::specs::Kinds::is_link))]
fn is_link(w: &[u8]) -> bool
    ensures { result ≡ is_link w.now }
{
    0 < number_in(w, 8)
}

// Whether a word is of a kind.
#[tactic(auto, unfolding(crate::specs::Kinds::is_kind))]
fn is_kind(kind: Kind, w: &[u8]) -> bool
    ensures { result ≡ is_kind kind w.now }
{
    match kind {
        Kind::Hex => is_hex(w),
        Kind::Family => is_family(w),
        Kind::Link => is_link(w),
        Kind::Number(most) => is_number(w, most),
    }
}

// Whether the words behind the first are one of each kind, and no more.
pub fn are_shaped(line: &[u8], kinds: &[Kind]) -> bool
    ensures { result ≡ shaped kinds.now (drop 1 (words_in line.now)) }
{
    let words = line.split(|b| *b == b' ').skip(1);
    spaces_in(line) == kinds.len()
        && kinds
            .iter()
            .zip(words)
            .all(|(kind, word)| is_kind(*kind, word))
}

// How many spaces part the words. The loop goes by places, so that the compiler asks many at once: of each line these are all its bytes.
pub fn spaces_in(line: &[u8]) -> usize
    ensures { suc result ≡ length (words_in line.now) }
{
    let mut n = 0;
    for i in 0..line.len() {
        if line[i] == b' ' {
            n += 1;
        }
    }
    n
}
