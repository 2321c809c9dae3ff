// KJW: what a state is, in sixteen bytes (document 01, "KJW (003)").
#![tactic(auto)]

ghost use Rattle.std.specs.Prelude.{◌≡◌, ◌++◌, get_or, replicate};
ghost use Rattle.decimals.specs.Decimals.{in_digits};
ghost use Rattle.kjw_values.specs.Values.{switch_word, scene_word, input_word, value_of};

use decimals::digits4;
use kjw_sets::State;
use panels::KRecord;

// "Fifteen `0` and 0 or 1."
#[tactic(auto, unfolding(crate::specs::Values::switch_word))]
fn switch_word(v: u8) -> [u8; 16]
    ensures { result ≡ switch_word v }
{
    match v {
        0 => *b"0000000000000000",
        _ => *b"0000000000000001",
    }
}

// A scene's name, "padded with `#`".
#[tactic(auto, unfolding(crate::specs::Values::scene_word))]
fn scene_word(v: u8) -> [u8; 16]
    ensures { result ≡ scene_word v }
{
    match v {
        0 => *b"auto############",
        1 => *b"auto24pSync#####",
        _ => *b"general#########",
    }
}

// Twelve `0` and the last four digits of a number.
fn four_digits(v: u16) -> [u8; 16]
    ensures { result ≡ replicate 12 0x30 ++ in_digits 4 v }
{
    let mut word = [b'0'; 16];
    word[12..].copy_from_slice(&digits4(v));
    word
}

// "16 decimal digits", of which a byte needs the last three.
fn volume_word(v: u8) -> [u8; 16]
    ensures { result ≡ in_digits 16 v }
{
    four_digits(u16::from(v))
}

// The last digit of a type. A good one has no other, and is not taken apart.
#[tactic(auto, unfolding(decimals::specs::Decimals::in_digits))]
fn type_digit(kind: u8) -> u8
    ensures { result ≡ get_or (in_digits 1 kind) 0 0 }
{
    if kind < 10 {
        return b'0' + kind;
    }
    digits4(u16::from(kind))[3]
}

// "Seven `0`, type [..], four `0`, port."
#[tactic(auto, unfolding(crate::specs::Values::input_word, decimals::specs::Decimals::in_digits))]
fn input_word(kind: u8, port: u16) -> [u8; 16]
    ensures { result ≡ input_word kind port }
{
    let mut word = four_digits(port);
    word[7] = type_digit(kind);
    word
}

// What a state is, in the control's layout.
#[tactic(auto, unfolding(crate::specs::Values::value_of))]
pub fn value_of(s: State, k: KRecord) -> [u8; 16]
    ensures { result ≡ value_of s k }
{
    match s {
        State::Power => switch_word(k.power),
        State::AudioMute => switch_word(k.amut),
        State::PictureMute => switch_word(k.pmut),
        State::Volume => volume_word(k.volume),
        State::Input => input_word(k.kind, k.port),
        State::Scene => scene_word(k.scene),
    }
}
