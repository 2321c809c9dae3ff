// The orders on the box alone, each carried out: what it does to the box, and what it writes (docs/SCRIPTS.md).
#![tactic(auto)]

ghost use Rattle.script_answers.specs.Answers.{Answers};
ghost use Rattle.script_orders.specs.Orders.{ordered};

use addresses::Line;
use panels::DisplayBox;
use script_answers::{Answered, say};
use script_bytes::{answer_advert, answer_sum, answer_write};
use script_lines::BoxOrder;
use script_listings::answer_plain;
use script_messages::{answer_message, answer_udp};
use script_panels::{answer_box, answer_show};

// The order of a line: what it does to the box, and its text at the front of an area.
pub fn answer_order(
    order: BoxOrder,
    b: DisplayBox,
    line: &[u8],
    out: &mut [u8],
) -> Answered<DisplayBox>
    ensures { Answers (ordered order b line.now) result out.old out.new }
{
    match order {
        BoxOrder::Passed => Answered { after: b, len: 0 },
        BoxOrder::Unread => say(b, out, b"unread"),
        BoxOrder::Box => answer_box(line, out),
        BoxOrder::Rs232 => answer_message(Line::Rs232c, b, line, out),
        BoxOrder::Kjw => answer_message(Line::Kjw, b, line, out),
        BoxOrder::Tcp => answer_message(Line::Tcp, b, line, out),
        BoxOrder::Udp => answer_udp(b, line, out),
        BoxOrder::Show => answer_show(b, line, out),
        BoxOrder::Advert => answer_advert(b, line, out),
        BoxOrder::Write => answer_write(b, line, out),
        BoxOrder::Sum => answer_sum(b, line, out),
        BoxOrder::Plain => answer_plain(b, line, out),
    }
}
