// What a script's orders write: text put into an area from a place on, cut off where the area ends (docs/SCRIPTS.md).
#![tactic(auto)]

ghost use Rattle.std.specs.Prelude.{◌≡◌, ◌<◌};
ghost use Rattle.decimals.specs.Plain.{plain};
ghost use Rattle.script_text.specs.Puts.{Puts};
ghost use Rattle.script_text.specs.Texts.{glyph, pairs, hex_text, number_text, bytes_text, signed_text, spoiled_by, at_text, placed_text, reply_text};

use decimals::{digit_at, width_of};
use octets::all_are;

// "a reply area of AREA bytes [..], each A5h"
pub const FILLER: u8 = 165;

// Puts a text from a place on, and answers the place behind it.
pub fn put(out: &mut [u8], at: usize, text: &[u8]) -> usize
    ensures { Puts text.now out.old at out.new result }
{
    if out.len() <= at {
        return at;
    }
    let to = at + text.len().min(out.len() - at);
    out[at..to].copy_from_slice(&text[..to - at]);
    to
}

// A number, the highest digit first.
pub fn put_number(out: &mut [u8], at: usize, v: u32) -> usize
    ensures { Puts (plain v) out.old at out.new result }
{
    let mut to = at;
    for left in (0..width_of(v)).rev() {
        to = put(out, to, &[digit_at(v, left)]);
    }
    to
}

#[tactic(auto, unfolding(crate::specs::Texts::glyph))]
fn glyph_of(d: u8) -> u8
    requires { d < 16 }
    ensures { result ≡ glyph d }
{
    match d {
        0..=9 => b'0' + d,
        _ => b'A' - 10 + d,
    }
}

// Two hex digits for each byte.
fn put_pairs(out: &mut [u8], at: usize, bytes: &[u8]) -> usize
    ensures { Puts (pairs bytes.now) out.old at out.new result }
{
    let mut to = at;
    for b in bytes {
        to = put(out, to, &[glyph_of(b / 16), glyph_of(b % 16)]);
    }
    to
}

fn put_hex(out: &mut [u8], at: usize, bytes: &[u8]) -> usize
    ensures { Puts (hex_text bytes.now) out.old at out.new result }
{
    if bytes.is_empty() {
        return put(out, at, b"-");
    }
    put_pairs(out, at, bytes)
}

// A word and a number behind it.
pub fn put_number_text(out: &mut [u8], at: usize, word: &[u8], v: u32) -> usize
    ensures { Puts (number_text word.now v) out.old at out.new result }
{
    let to = put(out, at, word);
    put_number(out, to, v)
}

// A word and bytes behind it.
pub fn put_bytes_text(out: &mut [u8], at: usize, word: &[u8], bytes: &[u8]) -> usize
    ensures { Puts (bytes_text word.now bytes.now) out.old at out.new result }
{
    let to = put(out, at, word);
    put_hex(out, to, bytes)
}

// The word ` spoiled`, where a byte behind the reply is no longer A5h.
fn put_spoiled(out: &mut [u8], at: usize, rest: &[u8]) -> usize
    ensures { Puts (spoiled_by rest.now) out.old at out.new result }
{
    if all_are(rest, FILLER) {
        return at;
    }
    put(out, at, b" spoiled")
}

// "`answer A at P` where P is not 0": the place that goes with an answer.
#[tactic(auto, using(crate::proofs::Texts::at_none, crate::proofs::Texts::at_some, crate::proofs::Puts::written_none, crate::proofs::Puts::behind_none))]
fn put_place(out: &mut [u8], at: usize, place: u16) -> usize
    ensures { Puts (at_text place) out.old at out.new result }
{
    match place {
        0 => at,
        _ => put_number_text(out, at, b" at ", place as u32),
    }
}

// An answer's number, and its place.
pub fn put_placed(out: &mut [u8], at: usize, answer: u8, place: u16) -> usize
    ensures { Puts (placed_text answer place) out.old at out.new result }
{
    let to = put_number_text(out, at, b"answer ", answer as u32);
    put_place(out, to, place)
}

// What went back: the answer's number and place, the reply, and what stands behind it in the area.
pub fn put_reply(
    out: &mut [u8],
    at: usize,
    answer: u8,
    place: u16,
    reply: &[u8],
    rest: &[u8],
) -> usize
    ensures { Puts (reply_text answer place reply.now rest.now) out.old at out.new result }
{
    let a = put_placed(out, at, answer, place);
    let b = put_bytes_text(out, a, b" reply ", reply);
    put_spoiled(out, b, rest)
}

// "A bias below 0 is written with `-`."
pub fn put_signed(out: &mut [u8], at: usize, z: i16) -> usize
    ensures { Puts (signed_text z) out.old at out.new result }
{
    let size = z.unsigned_abs() as u32;
    if z < 0 {
        return put_number_text(out, at, b"-", size);
    }
    put_number(out, at, size)
}
