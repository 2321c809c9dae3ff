// A box judged by the rules: how many panels, each by itself, and no two W panels that share both IDs (document 01, "The box and its messages").
#![tactic(auto)]

ghost use Rattle.std.specs.Prelude.{◌≡◌, ◌<◌, ◌≤◌, false, take, MatchOption};
ghost use Rattle.laws.specs.Lists.{every};
ghost use Rattle.panels.specs.Valid.{ok_panel, valid};
ghost use Rattle.box_rules.specs.Pairs.{ids_of, judged};
ghost use Rattle.box_rules.specs.Ring.{pair_at, Sees, apart_by, all_apart};

use octets::number2;
use panel_rules::panel_ok;
use panels::{DisplayBox, FAMILY_W, Panel};
use terms::{GroupId, UnitId};

// What a panel is called by: three bytes, where a whole panel is 58. Family 0 is no panel.
#[derive(Clone, Copy, PartialEq, Eq)]
pub struct Ids {
    pub family: u8,
    pub group: GroupId,
    pub unit: UnitId,
}

// What no panels are called by: those of a box that breaks the rules.
pub const NO_IDS: [Ids; 8] = [Ids {
    family: 0,
    group: GroupId(0),
    unit: UnitId(0),
}; 8];

// What was seen of good panels: what they are called by, and their pairs as numbers, eight places and the same eight again.
#[derive(Clone, Copy)]
struct Seen {
    ids: [Ids; 8],
    ring: [u16; 16],
}

// What a panel is called by.
pub fn called_by(p: Panel) -> Ids
    ensures { result ≡ ids_of p }
{
    Ids {
        family: p.family,
        group: p.group,
        unit: p.unit,
    }
}

// The pair of a W panel as one number, so that two are compared at once. Its group is 1 or more, so it is above the number of every
// place: that number stands where there is no W panel, and is like no other.
fn pair_at(d: Ids, k: usize) -> u16
    requires { k < 8 }
    ensures { result ≡ pair_at d k }
{
    if d.family != FAMILY_W {
        return k as u16;
    }
    number2(d.group.0, d.unit.0)
}

// Each panel is good by itself.
fn all_good(ps: &[Panel]) -> bool
    ensures { result ≡ every ok_panel ps.now }
{
    ps.iter().all(|p| panel_ok(*p))
}

// The first n panels, one by one. The places behind them have no panel. What they are called by is gathered before each is judged:
// the pairs are laid one by one and compared eight at once, and the machine would wait for them if the comparison followed at once.
fn look_through(ps: [Panel; 8], n: usize) -> Option<Seen>
    requires { n ≤ 8 }
    ensures { MatchOption result (every ok_panel (take n ps) ≡ false) (Sees ps n) }
{
    let mut ids = NO_IDS;
    let mut ring = [0, 1, 2, 3, 4, 5, 6, 7, 0, 1, 2, 3, 4, 5, 6, 7];
    for i in 0..n {
        let d = called_by(ps[i]);
        ids[i] = d;
        let pair = pair_at(d, i);
        ring[i] = pair;
        ring[i + 8] = pair;
    }
    if !all_good(&ps[..n]) {
        return None;
    }
    Some(Seen { ids, ring })
}

// No panel has the pair of the one d places on. There is no way out of the loop, so that the compiler compares all eight at once.
fn apart_by(ring: [u16; 16], d: usize) -> bool
    requires { d ≤ 8 }
    ensures { result ≡ apart_by ring d }
{
    let mut ok = true;
    for i in 0..8 {
        ok &= ring[i] != ring[i + d];
    }
    ok
}

// "No two W panels share both": of eight in a ring any two are four places apart at most.
fn all_apart(ring: [u16; 16]) -> bool
    ensures { result ≡ all_apart ring }
{
    apart_by(ring, 1) && apart_by(ring, 2) && apart_by(ring, 3) && apart_by(ring, 4)
}

// What the panels of a box that keeps the rules are called by, each at its place: the rules of document 01's first section.
pub fn judge(b: DisplayBox) -> Option<[Ids; 8]>
    ensures { result ≡ judged b }
{
    if !(1..=8).contains(&b.count) {
        return None;
    }
    let seen = look_through(b.panels, b.count)?;
    if !all_apart(seen.ring) {
        return None;
    }
    Some(seen.ids)
}

// Whether a box keeps them.
pub fn is_valid(b: DisplayBox) -> bool
    ensures { result ≡ valid b }
{
    judge(b).is_some()
}
