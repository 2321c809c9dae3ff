// SDCP: one packet to one W panel that it is addressed to (document 01, "SDCP and VMC (001, 002, 004)").
#![tactic(auto)]

ghost use Rattle.std.specs.Prelude.{◌≤◌, length};
ghost use Rattle.laws.specs.Bytes.{Sent};
ghost use Rattle.turns.specs.Turns.{Takes};
ghost use Rattle.sdcp.specs.Replies.{packet_of, bytes_of, turn_of};

use octets::{bytes2, lay};
use panels::WRecord;
use sdcp_asks::{Fault, hear};
use terms::{Answer, Outcome};
use vmc::{obey, tell};
use vmc_tells::{Says, spell};

// What is sent back by TCP.
#[derive(Clone, Copy)]
pub enum Reply {
    Silent,
    Ng,
    Ok(Says),
}

// A reply's packet at the front of the area: the request's first eight bytes and its item come back.
fn put_packet(m: &[u8], code: u8, body: &[u8], area: &mut [u8]) -> usize
    requires { (13 ≤ length m.now) × (length body.now ≤ 20) × (512 ≤ length area.old) }
    ensures { Sent (packet_of m.now code body.now) result area.old area.new }
{
    let n = body.len();
    let [high, low] = bytes2(n as u16);
    let head = [code, m[9], m[10], high, low];
    lay(area, 0, &m[0..8]);
    lay(area, 8, &head);
    lay(area, 13, body);
    13 + n
}

// What is told, as an OK packet.
fn put_ok(m: &[u8], told: Says, area: &mut [u8]) -> usize
    requires { (13 ≤ length m.now) × (512 ≤ length area.old) }
    ensures { Sent (bytes_of m.now (Reply.Ok told)) result area.old area.new }
{
    put_packet(m, 1, spell(told).as_slice(), area)
}

// A packet for a W panel, by TCP.
pub fn take_packet(w: WRecord, m: &[u8], area: &mut [u8]) -> Outcome<WRecord>
    ensures { Takes (turn_of m.now) w area.old result.after result.answer result.len area.new }
{
    if area.len() < 512 {
        return Outcome::refused(w, Answer::AreaTooSmall);
    }
    match hear(m) {
        Err(Fault::Refused(answer)) => Outcome::refused(w, answer),
        Err(Fault::Broken(part)) => Outcome {
            after: w,
            answer: Answer::PartWrong(part),
            len: put_packet(m, 0, b"\xF0\x50", area),
        },
        Err(Fault::NotUnderstood) => Outcome {
            after: w,
            answer: Answer::NotUnderstood,
            len: put_ok(m, Says::Bare, area),
        },
        Ok(o) => Outcome {
            after: obey(w, o),
            answer: Answer::Done,
            len: put_ok(m, tell(w, o), area),
        },
    }
}
