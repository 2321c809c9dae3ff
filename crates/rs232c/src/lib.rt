// RS-232C: what a W panel does with a frame (document 01, "RS-232C (002, 004)").
#![tactic(auto)]

ghost use Rattle.std.specs.Prelude.{◌≡◌};
ghost use Rattle.turns.specs.Turns.{Takes};
ghost use Rattle.rs232c_asks.specs.Asks.{values_of};
ghost use Rattle.rs232c.specs.Orders.{carried};
ghost use Rattle.rs232c.specs.Replies.{turn_of};

use panels::WRecord;
use rs232c_asks::{Order, hear};
use rs232c_inputs::{config, select};
use rs232c_levels::rebalance;
use rs232c_tells::{Reply, reply_to, send};
use terms::{Answer, Outcome};

// An order carried out on the record.
#[tactic(auto, unfolding(crate::specs::Orders::carried))]
fn carry(o: Order, m: &[u8], w: WRecord) -> WRecord
    ensures { result ≡ carried o (values_of m.now) w }
{
    match o {
        Order::Config(marks, byte) => WRecord {
            inputs: config(marks, byte, w.inputs),
            ..w
        },
        Order::Select(byte) => WRecord {
            inputs: select(byte, w.inputs),
            ..w
        },
        Order::Levels(mask) => WRecord {
            balance: rebalance(m, mask, w.balance),
            ..w
        },
        Order::Sense(_) | Order::Remote => w,
    }
}

// A frame on the RS-232C port of a W panel: an order is carried out and answered to its source, and NAK goes there in place of one.
pub fn take_frame(w: WRecord, m: &[u8], area: &mut [u8]) -> Outcome<WRecord>
    ensures { Takes (turn_of m.now) w area.old result.after result.answer result.len area.new }
{
    if area.len() < 512 {
        return Outcome::refused(w, Answer::AreaTooSmall);
    }
    let asked = match hear(m) {
        Ok(asked) => asked,
        Err(answer) => return Outcome::refused(w, answer),
    };
    match asked.order {
        Ok(o) => Outcome {
            after: carry(o, m, w),
            answer: Answer::Done,
            len: send(reply_to(asked.source, o, w), area),
        },
        Err(answer) => Outcome {
            after: w,
            answer,
            len: send(Reply::Nak { to: asked.source }, area),
        },
    }
}
