// RS-232C: 21h and 22h carried out on a W panel's inputs (document 01, "RS-232C (002, 004)").
#![tactic(auto)]

ghost use Rattle.std.specs.Prelude.{◌≡◌, ◌<◌};
ghost use Rattle.rs232c_inputs.specs.Inputs.{used_after, preset_after, turned_off, on_after, configured_by, selected_by};
ghost use Rattle.rs232c_inputs.specs.Places.{placed};

use octets::all_are;
use panels::{CONNECTORS, Inputs};

// Where a connector stands in the table of codes, if it is listed.
fn place_of(code: u8) -> Option<usize>
    ensures { result ≡ placed code }
{
    CONNECTORS.iter().position(|c| code == *c)
}

// 21h: the connector in use afterwards.
#[tactic(auto, using(crate::proofs::Places::in_use), unfolding(crate::specs::Inputs::used_after))]
fn used_after(marks: u8, byte: u8, i: Inputs) -> u8
    ensures { result ≡ used_after marks byte i }
{
    if marks % 2 != 1 {
        return i.used;
    }
    match place_of(byte % 16) {
        Some(place) if i.on[place] == 1 => byte % 16,
        _ => i.used,
    }
}

// 21h: the preset afterwards.
#[tactic(auto, unfolding(crate::specs::Inputs::preset_after))]
fn preset_after(marks: u8, byte: u8, i: Inputs) -> u8
    ensures { result ≡ preset_after marks byte i }
{
    if marks / 2 % 2 == 1 {
        byte / 16 % 8
    } else {
        i.preset
    }
}

// 22h OFF: ignored where it would leave no connector ON.
#[tactic(auto, unfolding(crate::specs::Inputs::turned_off))]
fn turned_off(on: [u8; 10], place: usize) -> [u8; 10]
    requires { place < 10 }
    ensures { result ≡ turned_off on place }
{
    let mut off = on;
    off[place] = 0;
    if all_are(&off, 0) { on } else { off }
}

// 22h: which connectors are ON afterwards.
#[tactic(auto, using(crate::proofs::Places::placing), unfolding(crate::specs::Inputs::on_after))]
fn on_after(byte: u8, on: [u8; 10]) -> [u8; 10]
    ensures { result ≡ on_after byte on }
{
    match (byte / 16 % 4, place_of(byte % 16)) {
        (1, Some(place)) => turned_off(on, place),
        (2, Some(place)) => {
            let mut next = on;
            next[place] = 1;
            next
        }
        (1 | 2, None) => on,
        _ => [1; 10],
    }
}

// 21h carried out.
pub fn config(marks: u8, byte: u8, i: Inputs) -> Inputs
    ensures { result ≡ configured_by marks byte i }
{
    Inputs {
        used: used_after(marks, byte, i),
        preset: preset_after(marks, byte, i),
        ..i
    }
}

// 22h carried out.
pub fn select(byte: u8, i: Inputs) -> Inputs
    ensures { result ≡ selected_by byte i }
{
    Inputs {
        on: on_after(byte, i.on),
        ..i
    }
}
