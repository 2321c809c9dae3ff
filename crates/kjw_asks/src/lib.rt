// KJW: what a frame asks, whatever the panel (document 01, "KJW (003)").
#![tactic(auto)]

ghost use Rattle.std.specs.Prelude.{◌≡◌, length};
ghost use Rattle.kjw_asks.specs.Frames.{letters_of};
ghost use Rattle.kjw_asks.specs.Asks.{state_named, toggle_of, code_or_toggle, control_of, enquiry_of, is_ours, heard_of};

use kjw_codes::code_order;
use kjw_sets::{Order, State, set_order};
use octets::byte_at;
use terms::Answer;

// Why a message orders nothing: it is refused with 3 or 4, or not understood (6).
#[derive(Clone, Copy)]
pub enum Fault {
    Refused(Answer),
    NotUnderstood,
}

// The states that letters name.
const STATES: [State; 6] = [
    State::Power,
    State::AudioMute,
    State::PictureMute,
    State::Volume,
    State::Input,
    State::Scene,
];

// The parameters of a frame that has none to give.
const BLANK: [u8; 16] = [b'#'; 16];

// The four letters of a message.
#[tactic(auto, unfolding(crate::specs::Frames::letters_of))]
pub fn letters_of(m: &[u8]) -> [u8; 4]
    ensures { result ≡ letters_of m.now }
{
    [byte_at(m, 3), byte_at(m, 4), byte_at(m, 5), byte_at(m, 6)]
}

// The state that four letters name.
fn state_named(letters: [u8; 4]) -> Option<State>
    ensures { result ≡ state_named letters }
{
    STATES.iter().find(|s| letters == s.letters()).copied()
}

// "TPOW and TPMU with sixteen `#`."
#[tactic(auto, using(laws::proofs::Library::same_pointwise), unfolding(crate::specs::Asks::toggle_of))]
fn toggle(letters: [u8; 4], p: &[u8]) -> Option<Order>
    ensures { result ≡ toggle_of letters p.now }
{
    if p != BLANK.as_slice() {
        return None;
    }
    if letters == *b"TPOW" {
        return Some(Order::TogglePower);
    }
    if letters == *b"TPMU" {
        return Some(Order::TogglePictureMute);
    }
    None
}

// IRCC, or a toggle.
#[tactic(auto, using(laws::proofs::Library::same_pointwise), unfolding(crate::specs::Asks::code_or_toggle))]
fn code_or_toggle(letters: [u8; 4], p: &[u8]) -> Option<Order>
    ensures { result ≡ code_or_toggle letters p.now }
{
    if letters == *b"IRCC" {
        return code_order(p);
    }
    toggle(letters, p)
}

// A frame of type C.
#[tactic(auto, unfolding(crate::specs::Asks::control_of))]
fn control(letters: [u8; 4], p: &[u8]) -> Option<Order>
    ensures { result ≡ control_of letters p.now }
{
    match state_named(letters) {
        Some(s) => set_order(s, p),
        None => code_or_toggle(letters, p),
    }
}

// A frame of type E.
#[tactic(auto, using(laws::proofs::Library::same_pointwise), unfolding(crate::specs::Asks::enquiry_of))]
fn enquire(letters: [u8; 4], p: &[u8]) -> Option<Order>
    ensures { result ≡ enquiry_of letters p.now }
{
    if p != BLANK.as_slice() {
        return None;
    }
    state_named(letters).map(Order::Ask)
}

// `*S`, the footer, and a type C or E.
#[tactic(auto, unfolding(crate::specs::Asks::is_ours))]
fn is_ours(m: &[u8]) -> bool
    requires { length m.now ≡ 24 }
    ensures { result ≡ is_ours m.now }
{
    m.starts_with(b"*S") && m[23] == 0x0A && matches!(m[2], b'C' | b'E')
}

// What a message says, whatever the panel.
#[tactic(auto, unfolding(crate::specs::Asks::heard_of))]
pub fn hear(m: &[u8]) -> Result<Order, Fault>
    ensures { result ≡ heard_of m.now }
{
    if m.len() != 24 {
        return Err(Fault::Refused(Answer::WrongLength));
    }
    if !is_ours(m) {
        return Err(Fault::Refused(Answer::NotForUs));
    }
    let letters = letters_of(m);
    let p = &m[7..23];
    let order = if m[2] == b'C' {
        control(letters, p)
    } else {
        enquire(letters, p)
    };
    order.ok_or(Fault::NotUnderstood)
}
