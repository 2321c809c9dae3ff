// What a line of a script does to what the script holds, and what it writes: the order that the line is, carried out
// (docs/SCRIPTS.md).
#![tactic(auto)]

ghost use Rattle.std.specs.Prelude.{◌≡◌, ◌<◌};
ghost use Rattle.script_receivers.specs.Receivers.{pieced_by};
ghost use Rattle.script_orders.specs.Orders.{ordered};
ghost use Rattle.script.specs.Answers.{link_place, receiver_at, on_box, on_link, answered, Leaves};

use panels::DisplayBox;
use receiver::Receiver;
use script_answers::Answered;
use script_lines::{BoxOrder, Order, order_of};
use script_orders::answer_order;
use script_receivers::{LINKS, answer_piece};
use script_words::number_at;

// What a script holds: the box, and a receiver for each TCP link.
#[derive(Clone, Copy)]
pub struct Held {
    pub made: DisplayBox,
    pub receivers: [Receiver; 8],
}

// An order on the box.
fn box_line(order: BoxOrder, s: Held, line: &[u8], out: &mut [u8]) -> Answered<Held>
    ensures { Leaves (on_box s (ordered order s.made line.now)) result out.old out.new }
{
    let a = answer_order(order, s.made, line, out);
    Answered {
        after: Held { made: a.after, ..s },
        len: a.len,
    }
}

// The place of the receiver that a line's piece is for.
fn place_in(line: &[u8]) -> usize
    ensures { (result ≡ link_place line.now) × (result < 8) }
{
    let link = number_at(line, 1, LINKS) as usize;
    link.saturating_sub(1)
}

// A piece for a receiver.
fn piece_line(s: Held, line: &[u8], out: &mut [u8]) -> Answered<Held>
    ensures { Leaves (on_link (link_place line.now) s (pieced_by s.made (receiver_at (link_place line.now) s) line.now)) result out.old out.new }
{
    let i = place_in(line);
    let mut receivers = s.receivers;
    let a = answer_piece(s.made, receivers[i], line, out);
    receivers[i] = a.receiver;
    Answered {
        after: Held {
            made: a.after,
            receivers,
        },
        len: a.len,
    }
}

// A line: what it does to what is held, and its text at the front of an area.
pub fn answer_line(s: Held, line: &[u8], out: &mut [u8]) -> Answered<Held>
    ensures { Leaves (answered s line.now) result out.old out.new }
{
    match order_of(line) {
        Order::OnBox(o) => box_line(o, s, line, out),
        Order::Piece => piece_line(s, line, out),
    }
}
