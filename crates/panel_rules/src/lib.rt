// A panel judged by the rules: its family, its IDs, and its own family's settings (document 01, "The box and its messages").
#![tactic(auto)]

ghost use Rattle.std.specs.Prelude.{◌≡◌};
ghost use Rattle.laws.specs.Lists.{every};
ghost use Rattle.panels.specs.Valid.{ok_shift, ok_bias, ok_inputs, ok_gain, ok_balance, ok_w, ok_input, ok_k, ok_ids, zero_ids, ok_panel};

use octets::{are_within, is_listed};
use panels::{
    Balance, CONNECTORS, FAMILY_K, FAMILY_W, Inputs, KINDS, KRecord, MOST_VOLUME, PRESETS, Panel,
    WRecord,
};
use settings::most_values;
use terms::{GroupId, UnitId};

// "SHIFTH or SHIFTV with -30 to +30."
#[tactic(auto, unfolding(panels::specs::Valid::ok_shift))]
fn shift_ok(z: i8) -> bool
    ensures { result ≡ ok_shift z }
{
    (-30..=30).contains(&z)
}

// A bias: "-1024 to 1023".
#[tactic(auto, unfolding(panels::specs::Valid::ok_bias))]
fn bias_ok(z: i16) -> bool
    ensures { result ≡ ok_bias z }
{
    (-1024..=1023).contains(&z)
}

#[tactic(auto, unfolding(panels::specs::Valid::ok_inputs))]
fn inputs_ok(i: Inputs) -> bool
    ensures { result ≡ ok_inputs i }
{
    is_listed(&CONNECTORS, i.used) && is_listed(&PRESETS, i.preset) && are_within(&i.on, &[1; 10])
}

// The white balance is asked with `&`, which has no way out: a box is judged at every message, and so the compiler asks all three
// numbers at once.
fn gains_ok(g: [u16; 3]) -> bool
    ensures { result ≡ every ok_gain g }
{
    g.iter().fold(true, |ok, x| ok & (*x <= 4095))
}

fn biases_ok(z: [i16; 3]) -> bool
    ensures { result ≡ every ok_bias z }
{
    z.iter().fold(true, |ok, x| ok & bias_ok(*x))
}

#[tactic(auto, unfolding(panels::specs::Valid::ok_balance))]
fn balance_ok(b: Balance) -> bool
    ensures { result ≡ ok_balance b }
{
    gains_ok(b.gains) & biases_ok(b.biases)
}

fn shifts_ok(z: [i8; 2]) -> bool
    ensures { result ≡ every ok_shift z }
{
    z.iter().all(|x| shift_ok(*x))
}

// Every setting of family W is in its range.
#[tactic(auto, unfolding(panels::specs::Valid::ok_w))]
fn w_ok(w: WRecord) -> bool
    ensures { result ≡ ok_w w }
{
    are_within(&w.settings, &most_values())
        && shifts_ok(w.shifts)
        && inputs_ok(w.inputs)
        && balance_ok(w.balance)
}

// The input's type and port.
#[tactic(auto, unfolding(panels::specs::Valid::ok_input))]
fn input_ok(kind: u8, port: u16) -> bool
    ensures { result ≡ ok_input kind port }
{
    is_listed(&KINDS, kind) && (1..=9999).contains(&port)
}

// Every setting of family K is in its range.
#[tactic(auto, unfolding(panels::specs::Valid::ok_k))]
fn k_ok(k: KRecord) -> bool
    ensures { result ≡ ok_k k }
{
    k.power <= 1
        && k.amut <= 1
        && k.pmut <= 1
        && k.volume <= MOST_VOLUME
        && k.scene <= 2
        && input_ok(k.kind, k.port)
}

// "A W panel has a group ID 1 to 99 and a unit ID 1 to 99."
#[tactic(auto, unfolding(panels::specs::Valid::ok_ids))]
fn ids_ok(g: GroupId, u: UnitId) -> bool
    ensures { result ≡ ok_ids g u }
{
    (1..=99).contains(&g.0) && (1..=99).contains(&u.0)
}

// "A K panel has 0 for both."
#[tactic(auto, unfolding(panels::specs::Valid::zero_ids))]
fn ids_zero(g: GroupId, u: UnitId) -> bool
    ensures { result ≡ zero_ids g u }
{
    g.0 == 0 && u.0 == 0
}

// One panel by itself: its family, its IDs, and its own family's settings.
#[tactic(auto, unfolding(panels::specs::Valid::ok_panel, panels::specs::Valid::ok_family))]
pub fn panel_ok(p: Panel) -> bool
    ensures { result ≡ ok_panel p }
{
    match p.family {
        FAMILY_W => ids_ok(p.group, p.unit) && w_ok(p.w),
        FAMILY_K => ids_zero(p.group, p.unit) && k_ok(p.k),
        _ => false,
    }
}
