// RS-232C: what goes back, written (document 01, "RS-232C (002, 004)").
#![tactic(auto)]

ghost use Rattle.std.specs.Prelude.{◌≡◌, ◌≤◌, length};
ghost use Rattle.laws.specs.Bytes.{Sent};
ghost use Rattle.rs232c_tells.specs.Room.{fitting};
ghost use Rattle.rs232c_tells.specs.Texts.{frame_of, balances_block, bytes_of, bias_bits, sensed, reply_to};

use octets::lay;
use panels::{Balance, WRecord};
use rs232c_asks::{Order, Which};
use settings::REMOTE;
use sums::sum_of;

// The command blocks that go back: ACK, NAK, and the codes of the replies to 6Eh and 61h.
const ACK: u8 = 0x04;

const NAK: u8 = 0x05;

const STATE: u8 = 0x7E;

const BALANCES: u8 = 0x71;

// What is sent back, and to whom.
#[derive(Clone, Copy)]
pub enum Reply {
    Ack {
        to: u8,
    },
    Nak {
        to: u8,
    },
    // 7Eh: REMOTE, which is 1 where it is ON
    State {
        to: u8,
        remote: u8,
    },
    // 71h: R, G, B
    Balances {
        to: u8,
        which: Which,
        values: [u16; 3],
    },
}

// The eleven bits of a bias.
#[tactic(auto, unfolding(crate::specs::Texts::bias_bits))]
fn bias_bits(z: i16) -> u16
    ensures { result ≡ bias_bits z }
{
    z.cast_unsigned() % 2048
}

// 61h: the three gains, or the three biases.
#[tactic(auto, unfolding(crate::specs::Texts::sensed))]
fn sense(which: Which, b: Balance) -> [u16; 3]
    ensures { result ≡ sensed which b }
{
    match which {
        Which::Gains => b.gains.map(|g| g % 4096),
        Which::Biases => b.biases.map(bias_bits),
    }
}

// What is sent back for an order, from the record as it was.
#[tactic(auto, unfolding(crate::specs::Texts::reply_to))]
pub fn reply_to(source: u8, o: Order, w: WRecord) -> Reply
    ensures { result ≡ reply_to source o w }
{
    let to = source;
    match o {
        Order::Config(..) | Order::Select(_) | Order::Levels(_) => Reply::Ack { to },
        Order::Sense(which) => Reply::Balances {
            to,
            which,
            values: sense(which, w.balance),
        },
        Order::Remote => Reply::State {
            to,
            remote: w.settings[REMOTE],
        },
    }
}

// A frame around a block: the byte count, both addresses and the checksum.
fn put_frame(to: u8, block: &[u8], area: &mut [u8]) -> usize
    requires block_len_bound { length block.now ≤ 8 }
    requires in_bounds { 13 ≤ length area.old }
    ensures { Sent (frame_of to block.now) result area.old area.new }
{
    let n = block.len();
    let head = [2, 2 + n as u8, to, 1];
    let sum = sum_of(&head[1..]).wrapping_add(sum_of(block));
    lay(area, 0, &head);
    lay(area, 4, block);
    lay(area, 4 + n, &[sum.wrapping_neg()]);
    5 + n
}

// 71h: the byte that was asked for, then R, G, B.
fn balances_block(which: Which, values: [u16; 3]) -> [u8; 8]
    ensures { result ≡ balances_block which values }
{
    let r = values[0].to_le_bytes();
    let g = values[1].to_le_bytes();
    let b = values[2].to_le_bytes();
    [BALANCES, which as u8, r[0], r[1], g[0], g[1], b[0], b[1]]
}

// The reply's bytes at the front of an area that has room for every reply, and their number.
#[tactic(auto, unfolding(crate::specs::Texts::bytes_of))]
fn put_reply(reply: Reply, area: &mut [u8]) -> usize
    requires { 13 ≤ length area.old }
    ensures { Sent (bytes_of reply) result area.old area.new }
{
    match reply {
        Reply::Ack { to } => put_frame(to, &[ACK], area),
        Reply::Nak { to } => put_frame(to, &[NAK], area),
        Reply::State { to, remote } => put_frame(to, &[STATE, remote], area),
        Reply::Balances { to, which, values } => put_frame(
            to,
            &balances_block(which, values),
            area,
        ),
    }
}

// The reply's bytes at the area's front, where it has room for the longest reply, and their number.
#[tactic(auto, using(crate::proofs::Fitting::none_fits, crate::proofs::Fitting::all_fits))]
pub fn send(reply: Reply, area: &mut [u8]) -> usize
    ensures { Sent (fitting (length area.old) (bytes_of reply)) result area.old area.new }
{
    if area.len() < 13 {
        return 0;
    }
    put_reply(reply, area)
}
