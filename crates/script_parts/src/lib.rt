// Parts of the line of a panel's record: the connectors, the white balance, and the line of a K panel (docs/SCRIPTS.md, `show`).
#![tactic(auto)]

ghost use Rattle.std.specs.Prelude.{cond, [], eqb};
ghost use Rattle.laws.specs.Bytes.{ascii};
ghost use Rattle.panels.specs.Records.{connectors};
ghost use Rattle.script_text.specs.Puts.{Puts};
ghost use Rattle.script_text.specs.Texts.{number_text};
ghost use Rattle.script_parts.specs.Parts.{on_text, inputs_text, scene_text, k_text};

use panels::{CONNECTORS, Inputs, KRecord};
use script_forms::put_numbers;
use script_text::{put, put_number_text};

// The code of a connector, where it is on.
fn put_code(out: &mut [u8], at: usize, on: u8, code: u8) -> usize
    ensures { Puts (cond (eqb on 0) [] (number_text (ascii " ") code)) out.old at out.new result }
{
    if on == 0 {
        return at;
    }
    put_number_text(out, at, b" ", code as u32)
}

// The codes of the connectors that are on.
fn put_on(out: &mut [u8], at: usize, on: [u8; 10]) -> usize
    ensures { Puts (on_text connectors on) out.old at out.new result }
{
    let mut to = at;
    for (i, code) in CONNECTORS.iter().enumerate() {
        to = put_code(out, to, on[i], *code);
    }
    to
}

// The connector in use, those that are on, and the preset white balance.
pub fn put_inputs(out: &mut [u8], at: usize, i: Inputs) -> usize
    ensures { Puts (inputs_text i) out.old at out.new result }
{
    let a = put_number_text(out, at, b" INPUT ", i.used as u32);
    let b = put(out, a, b" ON");
    let c = put_on(out, b, i.on);
    put_number_text(out, c, b" PRESET ", i.preset as u32)
}

#[tactic(auto, using(std::proofs::lemmas::Bool::Decides::nat_tests), unfolding(crate::specs::Parts::scene_text))]
fn put_scene(out: &mut [u8], at: usize, v: u8) -> usize
    ensures { Puts (scene_text v) out.old at out.new result }
{
    match v {
        0 => put(out, at, b" SCEN auto"),
        1 => put(out, at, b" SCEN auto24pSync"),
        _ => put(out, at, b" SCEN general"),
    }
}

// The line of a K panel.
pub fn put_k(out: &mut [u8], at: usize, k: KRecord) -> usize
    ensures { Puts (k_text k) out.old at out.new result }
{
    let numbers = [
        k.power as u32,
        k.kind as u32,
        k.port as u32,
        k.volume as u32,
        k.amut as u32,
        k.pmut as u32,
    ];
    let to = put_numbers(out, at, b"K POWR # INPT # # VOLU # AMUT # PMUT #", &numbers);
    put_scene(out, to, k.scene)
}
