// VMC: an order carried out on a W panel's record, and what is said of it (document 01, "SDCP and VMC"; document 02, §4).
#![tactic(auto)]

ghost use Rattle.std.specs.Prelude.{◌≡◌, ◌<◌, ◌≤◌, set};
ghost use Rattle.vmc.specs.Orders.{flip_of, flipped_to, flip_says, assigned, value_at, carried, says_of};
ghost use Rattle.vmc.specs.Changes.{settings_after, shifts_after};

use panels::WRecord;
use settings::{FLIP, SETTING_COUNT};
use vmc_asks::Order;
use vmc_tells::Says;

// FLIPH's flip is 1, FLIPV's 2 and FLIPHV's 3.
fn flip_of(k: usize) -> u8
    requires { (18 ≤ k) × (k < 21) }
    ensures { result ≡ flip_of k }
{
    (k - FLIP + 1) as u8
}

// "ON for a flip word makes it the panel's flip; OFF for it makes the flip none if that word's flip was in force."
fn flipped_to(flip: u8, v: u8, in_force: u8) -> u8
    ensures { result ≡ flipped_to flip v in_force }
{
    if v != 0 {
        return flip;
    }
    if in_force == flip {
        return 0;
    }
    in_force
}

// "STATget of a flip word says ON for the one in force."
fn flip_says(flip: u8, in_force: u8) -> u8
    ensures { result ≡ flip_says flip in_force }
{
    u8::from(in_force == flip)
}

// The settings with name k at a value.
fn assign(settings: [u8; 19], k: usize, v: u8) -> [u8; 19]
    ensures { result ≡ assigned k v settings }
{
    let mut s = settings;
    if k < FLIP {
        s[k] = v;
    } else if k < SETTING_COUNT {
        s[FLIP] = flipped_to(flip_of(k), v, settings[FLIP]);
    }
    s
}

// The value behind name k.
fn value_at(settings: [u8; 19], k: usize) -> u8
    requires { k < 21 }
    ensures { result ≡ value_at k settings }
{
    if k < FLIP {
        return settings[k];
    }
    flip_says(flip_of(k), settings[FLIP])
}

// What an order can change of a record.
#[derive(Clone, Copy)]
struct Changeable {
    settings: [u8; 19],
    shifts: [i8; 2],
}

// The shifts with one of them at a value.
fn moved(shifts: [i8; 2], axis: usize, z: i8) -> [i8; 2]
    ensures { result ≡ set shifts axis z }
{
    let mut s = shifts;
    if axis < 2 {
        s[axis] = z;
    }
    s
}

// The settings and the shifts after an order. The rest of a record is not carried through the cases: so no copy of it is made for them.
fn changed(settings: [u8; 19], shifts: [i8; 2], o: Order) -> Changeable
    ensures { (result.settings ≡ settings_after o settings) × (result.shifts ≡ shifts_after o shifts) }
{
    match o {
        Order::Set(k, v) => Changeable {
            settings: assign(settings, k, v),
            shifts,
        },
        Order::Shift(axis, z) => Changeable {
            settings,
            shifts: moved(shifts, axis, z),
        },
        Order::Reset => Changeable {
            settings,
            shifts: [0; 2],
        },
        Order::Get(_) => Changeable { settings, shifts },
    }
}

// An order carried out.
pub fn obey(w: WRecord, o: Order) -> WRecord
    ensures { result ≡ carried o w }
{
    let Changeable { settings, shifts } = changed(w.settings, w.shifts, o);
    WRecord {
        settings,
        shifts,
        ..w
    }
}

// The present value behind name k.
fn present(w: WRecord, k: usize) -> Says
    ensures { result ≡ says_of (Order.Get k) w }
{
    if k < SETTING_COUNT {
        return Says::Value(k, value_at(w.settings, k));
    }
    let shift = w.shifts.get(k - SETTING_COUNT).copied();
    Says::Offset(k, shift.unwrap_or(0))
}

// What an order is told.
pub fn tell(w: WRecord, o: Order) -> Says
    ensures { result ≡ says_of o w }
{
    match o {
        Order::Get(k) => present(w, k),
        _ => Says::Bare,
    }
}
