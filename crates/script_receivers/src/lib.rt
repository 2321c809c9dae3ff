// The order that is a piece for a receiver: each packet that the receiver hands out goes to the box at once (docs/SCRIPTS.md).
#![tactic(auto)]

ghost use Rattle.std.specs.Prelude.{◌≤◌, length};
ghost use Rattle.script_answers.specs.Answers.{Answers, filler};
ghost use Rattle.script_receivers.specs.Receivers.{packeted, pieced, pieced_by, Links};
ghost use Rattle.script_receivers.specs.Calls.{CallsOnce, packets_done};

use addresses::Line;
use panels::DisplayBox;
use receiver::{Receiver, take_piece};
use script_answers::Answered;
use script_messages::carry;
use script_text::{FILLER, put, put_bytes_text, put_number_text};
use script_words::{AREA, bytes_at, number_at};

// The links that have a receiver.
pub const LINKS: u32 = 8;

// What a piece did: box and receiver after it, and the length of its text.
#[derive(Clone, Copy)]
pub struct Linked {
    pub after: DisplayBox,
    pub receiver: Receiver,
    pub len: usize,
}

// Between two calls of the receiver: the box, the receiver, how much of the piece is taken and how much text is put.
#[derive(Clone, Copy)]
struct Between {
    made: DisplayBox,
    receiver: Receiver,
    taken: usize,
    len: usize,
}

// A packet: its bytes, and the line of what the box does with it.
fn say_packet(
    b: DisplayBox,
    link: usize,
    room: usize,
    packet: &[u8],
    out: &mut [u8],
) -> Answered<DisplayBox>
    requires { room ≤ 1024 }
    ensures { Answers (packeted link (filler room) b packet.now) result out.old out.new }
{
    let a = put_bytes_text(out, 0, b"packet ", packet);
    let e = put(out, a, b"\n");
    let mut area = [FILLER; 1024];
    let t = carry(Line::Tcp, b, link, packet, &mut area[..room], &mut out[e..]);
    Answered {
        len: e + t.len,
        ..t
    }
}

impl Between {
    // One call of the receiver, with what is left of the piece, and whether it handed out a packet.
    fn call(&mut self, link: usize, room: usize, piece: &[u8], out: &mut [u8]) -> bool
        requires { (room ≤ 1024) × (self.old.taken ≤ length piece.now) × (self.old.len ≤ length out.old) }
        ensures { CallsOnce link (filler room) self.old piece.now out.old self.new out.new result }
    {
        let mut packet = [0u8; 512];
        let g = take_piece(self.receiver, &piece[self.taken..], &mut packet);
        self.receiver = g.after;
        self.taken += g.taken;
        let Some(n) = g.len else {
            return false;
        };
        let a = say_packet(self.made, link, room, &packet[..n], &mut out[self.len..]);
        self.made = a.after;
        self.len += a.len;
        true
    }
}

// The receiver is called until a call hands out nothing.
fn feed(
    b: DisplayBox,
    r: Receiver,
    link: usize,
    room: usize,
    piece: &[u8],
    out: &mut [u8],
) -> Linked
    requires { room ≤ 1024 }
    ensures { Links (packets_done link (filler room) b r piece.now) result out.old out.new }
{
    let mut f = Between {
        made: b,
        receiver: r,
        taken: 0,
        len: 0,
    };
    while f.call(link, room, piece, out) {}
    Linked {
        after: f.made,
        receiver: f.receiver,
        len: f.len,
    }
}

// A piece: its packets, and then how many bytes the receiver keeps.
fn link_piece(
    b: DisplayBox,
    r: Receiver,
    link: usize,
    room: usize,
    piece: &[u8],
    out: &mut [u8],
) -> Linked
    requires { room ≤ 1024 }
    ensures { Links (pieced link (filler room) b r piece.now) result out.old out.new }
{
    let f = feed(b, r, link, room, piece, out);
    let at = put_number_text(out, f.len, b"held ", f.receiver.held as u32);
    let len = put(out, at, b"\n");
    Linked { len, ..f }
}

pub fn answer_piece(b: DisplayBox, r: Receiver, line: &[u8], out: &mut [u8]) -> Linked
    ensures { Links (pieced_by b r line.now) result out.old out.new }
{
    let mut bytes = [0u8; 1024];
    let n = bytes_at(line, 3, &mut bytes);
    let room = number_at(line, 2, AREA) as usize;
    let link = number_at(line, 1, LINKS) as usize;
    link_piece(b, r, link, room, &bytes[..n], out)
}
