// A configuration: three bytes a panel in, a box at its start values out (document 01, "The box and its messages" and "Start values").
#![tactic(auto)]

ghost use Rattle.std.specs.Prelude.{◌≡◌, ◌≤◌, length};
ghost use Rattle.panels.specs.Records.{start_w, start_k};
ghost use Rattle.configure.specs.Configure.{asked, fresh_panel, refusal, configured};

use box_rules::is_valid;
use panels::{Balance, DisplayBox, Inputs, KRecord, Panel, WRecord, zero_panel};
use settings::start_values;
use terms::{Answer, GroupId, UnitId};

// What a configuration gives: its answer, and the box. A refusal gives a box too, that of no panels, as `configured` says.
#[derive(Clone, Copy)]
pub struct Configured {
    pub answer: Answer,
    pub made: DisplayBox,
}

fn start_w() -> WRecord
    ensures { result ≡ start_w }
{
    WRecord {
        settings: start_values(),
        shifts: [0; 2],
        spare: 0,
        inputs: Inputs {
            used: 0,
            preset: 3,
            on: [1; 10],
        },
        balance: Balance {
            gains: [2048; 3],
            biases: [0; 3],
        },
    }
}

fn start_k() -> KRecord
    ensures { result ≡ start_k }
{
    KRecord {
        power: 0,
        amut: 0,
        pmut: 0,
        volume: 0,
        scene: 2,
        kind: 1,
        port: 1,
    }
}

// A panel at its start values.
fn fresh_panel(family: u8, group: u8, unit: u8) -> Panel
    ensures { result ≡ fresh_panel family group unit }
{
    Panel {
        family,
        group: GroupId(group),
        unit: UnitId(unit),
        spare: 0,
        w: start_w(),
        k: start_k(),
    }
}

// The box that three bytes a panel ask for. The places are filled where they stand: a box that is made of an array needs the stack for
// both, and a host lends no more than the header says.
fn asked_box(c: &[u8]) -> DisplayBox
    requires { length c.now ≤ 24 }
    ensures { result ≡ asked c.now }
{
    let n = c.len() / 3;
    let mut panels = [zero_panel(); 8];
    for i in 0..n {
        panels[i] = fresh_panel(c[i * 3], c[i * 3 + 1], c[i * 3 + 2]);
    }
    DisplayBox { count: n, panels }
}

fn refused() -> Configured
    ensures { result ≡ refusal }
{
    Configured {
        answer: Answer::BadConfiguration,
        made: DisplayBox {
            count: 0,
            panels: [zero_panel(); 8],
        },
    }
}

// A new box: three bytes a panel, its family (57h or 4Bh), its group and its unit. More bytes than eight panels have are refused before
// they are counted: so few are divided as a byte is (tests/division).
#[tactic(auto, using(crate::proofs::Long::long_refused))]
pub fn configure(c: &[u8]) -> Configured
    ensures { result ≡ configured c.now }
{
    if 24 < c.len() {
        return refused();
    }
    if c.len() % 3 != 0 {
        return refused();
    }
    let b = asked_box(c);
    if !is_valid(b) {
        return refused();
    }
    Configured {
        answer: Answer::Done,
        made: b,
    }
}
