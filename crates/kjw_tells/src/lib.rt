// KJW: what goes back, written (document 01, "KJW (003)").
#![tactic(auto)]

ghost use Rattle.std.specs.Prelude.{◌≡◌, ◌≤◌, length};
ghost use Rattle.laws.specs.Bytes.{Sent};
ghost use Rattle.kjw_asks.specs.Frames.{frame_of, type_answer};
ghost use Rattle.kjw_tells.specs.Texts.{bytes_of, fitting};

use kjw_sets::State;
use kjw_values::value_of;
use octets::lay;
use panels::KRecord;

// What goes back: nothing, the answer of sixteen `F`, that of sixteen `0`, that and a notice, or a state's value.
#[derive(Clone, Copy)]
pub enum Reply {
    Silent,
    Rejected,
    Accepted,
    Changed(State),
    Value(State),
}

// "`*S`, type, four letters, 16 parameters, 0Ah."
#[tactic(auto, unfolding(kjw_asks::specs::Frames::frame_of))]
fn frame(kind: u8, letters: [u8; 4], p: [u8; 16]) -> [u8; 24]
    ensures { result ≡ frame_of kind letters p }
{
    let mut bytes = [0x0A; 24];
    bytes[..3].copy_from_slice(&[b'*', b'S', kind]);
    bytes[3..7].copy_from_slice(&letters);
    bytes[7..23].copy_from_slice(&p);
    bytes
}

// An answer alone; its length.
fn put_answer(area: &mut [u8], letters: [u8; 4], p: [u8; 16]) -> usize
    requires { 48 ≤ length area.old }
    ensures { Sent (frame_of type_answer letters p) result area.old area.new }
{
    lay(area, 0, &frame(b'A', letters, p));
    24
}

// The answer of an accepted control, and the notice with the new value behind it; their length.
fn put_both(area: &mut [u8], letters: [u8; 4], s: State, k: KRecord) -> usize
    requires { 48 ≤ length area.old }
    ensures { Sent (bytes_of (Reply.Changed s) k letters) result area.old area.new }
{
    lay(area, 0, &frame(b'A', letters, [b'0'; 16]));
    lay(area, 24, &frame(b'N', s.letters(), value_of(s, k)));
    48
}

// The reply's bytes to the front of an area that has room for every reply; their length.
#[tactic(auto, unfolding(crate::specs::Texts::bytes_of))]
fn put_reply(r: Reply, k: KRecord, letters: [u8; 4], area: &mut [u8]) -> usize
    requires { 48 ≤ length area.old }
    ensures { Sent (bytes_of r k letters) result area.old area.new }
{
    match r {
        Reply::Silent => 0,
        Reply::Rejected => put_answer(area, letters, [b'F'; 16]),
        Reply::Accepted => put_answer(area, letters, [b'0'; 16]),
        Reply::Changed(s) => put_both(area, letters, s, k),
        Reply::Value(s) => put_answer(area, letters, value_of(s, k)),
    }
}

// The reply's bytes to the front of the area, where it has room for an answer and a notice; their length.
#[tactic(auto, unfolding(crate::specs::Texts::fitting))]
pub fn send(r: Reply, k: KRecord, letters: [u8; 4], area: &mut [u8]) -> usize
    ensures { Sent (fitting (length area.old) (bytes_of r k letters)) result area.old area.new }
{
    if area.len() < 48 {
        return 0;
    }
    put_reply(r, k, letters, area)
}
