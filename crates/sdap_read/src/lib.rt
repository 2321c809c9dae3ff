// The advert reader (document 01, "SDAP advert, 122 bytes").
#![tactic(auto)]

ghost use Rattle.std.specs.Prelude.{◌≡◌, ◌+◌, ◌≤◌, length};
ghost use Rattle.laws.specs.Bytes.{part};
ghost use Rattle.laws.specs.Numbers.{number};
ghost use Rattle.sdap.specs.Layout.{lent_of, fields_of, no_fields};
ghost use Rattle.sdap.specs.Rules.{Sized, is_front, read_answer, read_of};

use sdap::{Advert, Fields, Read};
use terms::{Answer, GroupId, UnitId};

// The N bytes that stand at a place.
fn bytes_at<const N: usize>(s: &[u8], at: usize) -> [u8; N]
    requires { at + N ≤ length s.now }
    ensures { result ≡ part at N s.now }
{
    s[at..at + N].try_into().unwrap()
}

// The number that stands at a place: one function for each width, as the library has.
fn number2_at(s: &[u8], at: usize) -> u16
    requires { at + 2 ≤ length s.now }
    ensures { result ≡ number (part at 2 s.now) }
{
    u16::from_be_bytes(bytes_at(s, at))
}

fn number4_at(s: &[u8], at: usize) -> u32
    requires { at + 4 ≤ length s.now }
    ensures { result ≡ number (part at 4 s.now) }
{
    u32::from_be_bytes(bytes_at(s, at))
}

// The four accepted addresses.
#[tactic(auto, unfolding(sdap::specs::Layout::fields_of))]
fn accepted_of(s: &[u8]) -> [u32; 4]
    requires { length s.now ≡ 122 }
    ensures { result ≡ (fields_of s.now).accepted }
{
    [
        number4_at(s, 54),
        number4_at(s, 58),
        number4_at(s, 62),
        number4_at(s, 66),
    ]
}

// The fields of 122 bytes, the texts where they lie.
#[tactic(auto, unfolding(sdap::specs::Layout::fields_of))]
fn fields(s: &[u8]) -> Fields<'_>
    requires { length s.now ≡ 122 }
    ensures { lent_of result ≡ fields_of s.now }
{
    Fields {
        category: s[3],
        product: &s[8..20],
        serial: number4_at(s, 20),
        power: number2_at(s, 24),
        location: &s[26..50],
        connected: number4_at(s, 50),
        accepted: accepted_of(s),
        error: number2_at(s, 70),
        region: &s[72..96],
        name: &s[96..120],
        group: GroupId(s[120]),
        unit: UnitId(s[121]),
    }
}

// The same fields by value.
fn advert(f: &Fields) -> Advert
    requires { Sized (lent_of f.now) }
    ensures { result ≡ lent_of f.now }
{
    Advert {
        category: f.category,
        product: f.product.try_into().unwrap(),
        serial: f.serial,
        power: f.power,
        location: f.location.try_into().unwrap(),
        connected: f.connected,
        accepted: f.accepted,
        error: f.error,
        region: f.region.try_into().unwrap(),
        name: f.name.try_into().unwrap(),
        group: f.group,
        unit: f.unit,
    }
}

// Every field zero. Written out: of a derived default it is known only that each field, and each byte of a text, is one.
fn no_fields() -> Advert
    ensures { result ≡ no_fields }
{
    Advert {
        category: 0,
        product: [0; 12],
        serial: 0,
        power: 0,
        location: [0; 24],
        connected: 0,
        accepted: [0; 4],
        error: 0,
        region: [0; 24],
        name: [0; 24],
        group: GroupId(0),
        unit: UnitId(0),
    }
}

// "DA", the version and "SONY" stand at their places.
#[tactic(auto, using(laws::proofs::Library::same_pointwise), unfolding(sdap::specs::Rules::is_front))]
fn is_front(s: &[u8]) -> bool
    requires { length s.now ≡ 122 }
    ensures { result ≡ is_front s.now }
{
    s[..3] == b"DA\x04"[..] && s[4..8] == b"SONY"[..]
}

// The advert reader's answer alone.
#[tactic(auto, unfolding(sdap::specs::Rules::read_answer))]
pub fn read_answer(s: &[u8]) -> Answer
    ensures { result ≡ read_answer s.now }
{
    if s.len() != 122 {
        return Answer::WrongLength;
    }
    if !is_front(s) {
        return Answer::NotForUs;
    }
    fields(s).verdict()
}

// The advert reader.
pub fn read_advert(s: &[u8]) -> Read
    ensures { result ≡ read_of s.now }
{
    let answer = read_answer(s);
    if answer != Answer::Done {
        return Read {
            answer,
            fields: no_fields(),
        };
    }
    Read {
        answer,
        fields: advert(&fields(s)),
    }
}
