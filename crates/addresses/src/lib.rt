// Whom a message comes to: what the panels of a box are called by, the way in and the first eight bytes decide it (document 01,
// "Addressing"), behind the first two checks.
#![tactic(auto)]

ghost use Rattle.std.specs.Prelude.{◌≡◌, ◌+◌, cond, ◌&&◌, ◌||◌, map, eqb, length};
ghost use Rattle.steps.specs.Messages.{on_link};
ghost use Rattle.steps.specs.Addressing.{has_ids, is_id, is_pair, pair_number, by_tcp, is_called, any_called};
ghost use Rattle.steps.specs.Step.{to_nobody};
ghost use Rattle.addresses.specs.Doors.{id_name, numbered, family_by, is_of, target_by, opened};

use box_rules::Ids;
use octets::byte_at;
use panels::{FAMILY_K, FAMILY_W};
use sdcp_asks::is_ours;
use terms::{Answer, GroupId, UnitId};

// The ways in that have a link and a reply area.
#[derive(Clone, Copy)]
pub enum Line {
    Rs232c,
    Kjw,
    Tcp,
}

// To every screen, or to every unit of a group.
const ALL: u8 = 0xFF;

// "Under 13 bytes: 3. [..] or no panel addressed: 4."
#[tactic(auto, unfolding(steps::specs::Step::to_nobody))]
pub fn to_nobody(m: &[u8]) -> Answer
    ensures { result ≡ to_nobody m.now }
{
    if m.len() < 13 {
        Answer::WrongLength
    } else {
        Answer::NotForUs
    }
}

// The packet has its first eight bytes, and they are SDCP's.
#[tactic(auto, unfolding(steps::specs::Addressing::has_ids))]
fn has_ids(m: &[u8]) -> bool
    ensures { result ≡ has_ids m.now }
{
    8 <= m.len() && is_ours(m)
}

// An ID: "1 to 99".
fn is_id(n: u8) -> bool
    ensures { result ≡ is_id n }
{
    (1..=99).contains(&n)
}

// A W panel with that pair: a group is compared with a group and a unit with a unit.
#[tactic(auto, using(crate::proofs::Names::pair_is))]
fn has_pair(p: Ids, group: GroupId, unit: UnitId) -> bool
    ensures { result ≡ is_pair group unit (id_name p) }
{
    p == Ids {
        family: FAMILY_W,
        group,
        unit,
    }
}

// The place of the first panel with that pair.
fn place_of_pair(ids: [Ids; 8], group: GroupId, unit: UnitId) -> Option<usize>
    ensures { numbered result ≡ pair_number group unit 1 (map id_name ids) }
{
    ids.iter().position(|p| has_pair(*p, group, unit))
}

// "TCP: 0/0 is the link's own panel; 1..99/1..99 is the W panel with that pair."
#[tactic(auto, unfolding(steps::specs::Addressing::by_tcp))]
fn by_tcp(ids: [Ids; 8], own: usize, m: &[u8]) -> Option<usize>
    ensures { numbered result ≡ by_tcp (map id_name ids) (own + 1) m.now }
{
    if !has_ids(m) {
        return None;
    }
    let g = byte_at(m, 6);
    let u = byte_at(m, 7);
    if g == 0 && u == 0 {
        return Some(own);
    }
    if !(is_id(g) && is_id(u)) {
        return None;
    }
    place_of_pair(ids, GroupId(g), UnitId(u))
}

// The family that a way in leads to.
fn family_by(line: Line) -> u8
    ensures { result ≡ family_by line }
{
    match line {
        Line::Rs232c | Line::Tcp => FAMILY_W,
        Line::Kjw => FAMILY_K,
    }
}

// The place of the panel on a link, where it is of the family that the way in leads to.
fn place_on(line: Line, ids: [Ids; 8], link: usize) -> Option<usize>
    ensures { numbered result ≡ cond (is_of line (on_link (map id_name ids) link)) link 0 }
{
    let place = link.checked_sub(1)?;
    let p = ids.get(place)?;
    if p.family != family_by(line) {
        return None;
    }
    Some(place)
}

// The place of the panel that a message addresses.
fn target_by(line: Line, ids: [Ids; 8], own: usize, m: &[u8]) -> Option<usize>
    ensures { numbered result ≡ target_by line (map id_name ids) (own + 1) m.now }
{
    match line {
        Line::Rs232c | Line::Kjw => Some(own),
        Line::Tcp => by_tcp(ids, own, m),
    }
}

// The door of the box is open to the panel at a place, or shut with an answer: checks 1 and 2, and 3 or 4 where nobody is addressed.
pub fn door_of(
    line: Line,
    ids: [Ids; 8],
    link: usize,
    m: &[u8],
    room: usize,
) -> Result<usize, Answer>
    ensures { (result ≡ opened line (map id_name ids) link m.now room) × (length ids ≡ 8) }
{
    if room < 512 {
        return Err(Answer::AreaTooSmall);
    }
    match place_on(line, ids, link) {
        None => Err(Answer::NoSuchPanel),
        Some(own) => target_by(line, ids, own, m).ok_or(to_nobody(m)),
    }
}

// A group is called by its own number or with all others.
fn calls_group(g: u8, group: GroupId) -> bool
    ensures { result ≡ (eqb g 0xff || is_id g && eqb g group.0) }
{
    g == ALL || is_id(g) && GroupId(g) == group
}

// "1..99/FFh is every W panel of that group; FFh/FFh every W panel."
#[tactic(auto, using(crate::proofs::Names::call_other), unfolding(steps::specs::Addressing::is_called, crate::specs::Doors::id_name))]
pub fn is_called(m: &[u8], p: Ids) -> bool
    ensures { result ≡ is_called m.now (id_name p) }
{
    p.family == FAMILY_W
        && has_ids(m)
        && byte_at(m, 7) == ALL
        && calls_group(byte_at(m, 6), p.group)
}

// Some panel is called.
pub fn any_called(m: &[u8], ids: [Ids; 8]) -> bool
    ensures { result ≡ any_called m.now (map id_name ids) }
{
    ids.iter().any(|p| is_called(m, *p))
}
