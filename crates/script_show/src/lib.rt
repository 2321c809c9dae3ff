// The line of a panel's record (docs/SCRIPTS.md, `show`).
#![tactic(auto)]

ghost use Rattle.std.specs.Prelude.{◌∷◌};
ghost use Rattle.vmc.specs.Orders.{says_of};
ghost use Rattle.vmc_tells.specs.Texts.{text_of};
ghost use Rattle.script_text.specs.Puts.{Puts};
ghost use Rattle.script_show.specs.Shown.{shown_names, settings_text, w_text, panel_text};

use panels::{Panel, WRecord};
use script_balance::put_balance;
use script_forms::put_numbers;
use script_parts::{put_inputs, put_k};
use script_text::put;
use vmc::tell;
use vmc_asks::Order;
use vmc_tells::spell;

// The names in the order of the line: SHIFTH and SHIFTV stand behind VOLUME.
const SHOWN: [usize; 23] = [
    0, // PHASE
    1, // CHROMA
    2, // VOLUME
    21, // SHIFTH
    22, // SHIFTV
    3, // MODE
    4, // NTSC
    5, // RGB RANGE
    6, // REMOTE
    7, // POWERSAVING
    8, // KEYINHIBIT
    9, // TALLYGREEN
    10, // TALLYRED
    11, // HVDELAY
    12, // BLUEONLY
    13, // MONOCHR
    14, // CAMERA FOCUS
    15, // LED
    16, // SCREENSAVER
    17, // SILENTMODE
    18, // FLIPH
    19, // FLIPV
    20, // FLIPHV
];

// The words of name k, a space before them.
fn put_setting(out: &mut [u8], at: usize, w: WRecord, k: usize) -> usize
    ensures { Puts (0x20 ∷ text_of (says_of (Order.Get k) w)) out.old at out.new result }
{
    let to = put(out, at, b" ");
    put(out, to, spell(tell(w, Order::Get(k))).as_slice())
}

fn put_settings(out: &mut [u8], at: usize, w: WRecord) -> usize
    ensures { Puts (settings_text w shown_names) out.old at out.new result }
{
    let mut to = at;
    for k in &SHOWN {
        to = put_setting(out, to, w, *k);
    }
    to
}

fn put_w(out: &mut [u8], at: usize, group: u8, unit: u8, w: WRecord) -> usize
    ensures { Puts (w_text group unit w) out.old at out.new result }
{
    let a = put_numbers(out, at, b"W # #", &[group as u32, unit as u32]);
    let b = put_settings(out, a, w);
    let c = put_inputs(out, b, w.inputs);
    put_balance(out, c, w.balance)
}

// The line of a panel's record.
pub fn put_panel(out: &mut [u8], at: usize, p: Panel) -> usize
    ensures { Puts (panel_text p) out.old at out.new result }
{
    if p.family == b'W' {
        return put_w(out, at, p.group.0, p.unit.0, p.w);
    }
    put_k(out, at, p.k)
}
