// KJW: the states, their letters, and what a control with these orders (document 01, "KJW (003)").
#![tactic(auto)]

ghost use Rattle.std.specs.Prelude.{◌≡◌, ◌≤◌, length};
ghost use Rattle.kjw_sets.specs.Sets.{chosen, volume_order, is_padded, input_of, input_order, set_of};
ghost use Rattle.kjw_sets.specs.Words.{state_letters, switches, scenes};

use decimals::read_digits;
use panels::{KINDS, MOST_VOLUME};

// What an enquiry asks for and a notice tells: POWR, AMUT, PMUT, VOLU, INPT, SCEN.
#[derive(Clone, Copy)]
pub enum State {
    Power,
    AudioMute,
    PictureMute,
    Volume,
    Input,
    Scene,
}

// What an understood frame orders. An input is its type and its port; a pass is answered and changes nothing.
// Each switch has orders of its own, as it has a field of its own in the record: one type of switches would be mapped to both by hand.
#[derive(Clone, Copy)]
pub enum Order {
    SetPower(u8),
    TogglePower,
    SetAudioMute(u8),
    ToggleAudioMute,
    SetPictureMute(u8),
    TogglePictureMute,
    SetVolume(u8),
    Louder,
    Softer,
    SetInput(u8, u16),
    SetScene(u8),
    Pass,
    Ask(State),
}

impl State {
    // A state's letters.
    #[tactic(auto, unfolding(crate::specs::Words::state_letters))]
    pub fn letters(self) -> [u8; 4]
        ensures { result ≡ state_letters self }
    {
        match self {
            State::Power => *b"POWR",
            State::AudioMute => *b"AMUT",
            State::PictureMute => *b"PMUT",
            State::Volume => *b"VOLU",
            State::Input => *b"INPT",
            State::Scene => *b"SCEN",
        }
    }
}

// "Fifteen `0` and 0 or 1."
#[tactic(auto, using(laws::proofs::Library::same_pointwise), unfolding(crate::specs::Sets::chosen_from))]
fn switch_of(p: &[u8]) -> Option<u8>
    ensures { result ≡ chosen switches p.now }
{
    if p == b"0000000000000000".as_slice() {
        return Some(0);
    }
    if p == b"0000000000000001".as_slice() {
        return Some(1);
    }
    None
}

// "SCEN `auto`, `auto24pSync` or `general`, padded with `#`."
#[tactic(auto, using(laws::proofs::Library::same_pointwise), unfolding(crate::specs::Sets::chosen_from))]
fn scene_of(p: &[u8]) -> Option<u8>
    ensures { result ≡ chosen scenes p.now }
{
    if p == b"auto############".as_slice() {
        return Some(0);
    }
    if p == b"auto24pSync#####".as_slice() {
        return Some(1);
    }
    if p == b"general#########".as_slice() {
        return Some(2);
    }
    None
}

// "VOLU, 16 decimal digits, 0 to 100 (house)."
#[tactic(auto, unfolding(crate::specs::Sets::volume_order, crate::specs::Sets::is_volume, decimals::specs::Decimals::read_digits))]
fn volume_order(p: &[u8]) -> Option<Order>
    requires { length p.now ≡ 16 }
    ensures { result ≡ volume_order p.now }
{
    let v = read_digits(p)?;
    if v > MOST_VOLUME as u64 {
        return None;
    }
    Some(Order::SetVolume(v as u8))
}

// "INPT is seven `0`, type [..], four `0`, port [..]."
#[tactic(auto, using(laws::proofs::Library::same_pointwise), unfolding(crate::specs::Sets::is_padded))]
fn is_padded(p: &[u8]) -> bool
    requires { length p.now ≡ 16 }
    ensures { result ≡ is_padded p.now }
{
    p.starts_with(b"0000000") && p[8..].starts_with(b"0000")
}

// "Type 1, 3, 4 or 5, [..] port 0001 to 9999."
#[tactic(auto, unfolding(crate::specs::Sets::input_of, panels::specs::Valid::ok_input))]
fn input_of(kind: u64, port: u64) -> Option<Order>
    requires { (kind ≤ 9) × (port ≤ 9999) }
    ensures { result ≡ input_of kind port }
{
    if !KINDS.contains(&(kind as u8)) || port == 0 {
        return None;
    }
    Some(Order::SetInput(kind as u8, port as u16))
}

// INPT's parameters: their digits write the type and the port.
#[tactic(auto, using(crate::proofs::Parameters::input_most), unfolding(crate::specs::Sets::input_order, decimals::specs::Decimals::read_digits))]
fn input_order(p: &[u8]) -> Option<Order>
    requires { length p.now ≡ 16 }
    ensures { result ≡ input_order p.now }
{
    if !is_padded(p) {
        return None;
    }
    input_of(read_digits(&p[7..8])?, read_digits(&p[12..16])?)
}

// A control with a state's letters: what its sixteen parameters order.
#[tactic(auto, unfolding(crate::specs::Sets::set_of, crate::specs::Sets::set_by))]
pub fn set_order(s: State, p: &[u8]) -> Option<Order>
    ensures { result ≡ set_of s p.now }
{
    if p.len() != 16 {
        return None;
    }
    match s {
        State::Power => switch_of(p).map(Order::SetPower),
        State::AudioMute => switch_of(p).map(Order::SetAudioMute),
        State::PictureMute => switch_of(p).map(Order::SetPictureMute),
        State::Volume => volume_order(p),
        State::Input => input_order(p),
        State::Scene => scene_of(p).map(Order::SetScene),
    }
}
