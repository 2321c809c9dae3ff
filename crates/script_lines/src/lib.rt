// Which order a line of a script is (docs/SCRIPTS.md, "Orders").
#![tactic(auto)]

ghost use Rattle.std.specs.Prelude.{map, ◌≡◌};
ghost use Rattle.script_lines.specs.Orders.{asks, asks_box, order_in, order_rows, lent, is_passed_over, order_of};

use script_boxes::panels_in;
use script_words::{ANY, AREA, Kind, are_shaped, word_at};

// The orders on the box alone. A line that is passed over and one that is no order count among them.
#[derive(Clone, Copy)]
pub enum BoxOrder {
    Passed,
    Unread,
    Box,
    Rs232,
    Kjw,
    Tcp,
    Udp,
    Show,
    Advert,
    Write,
    Sum,
    Plain,
}

// The orders of a script: on the box alone, or a piece for a receiver.
#[derive(Clone, Copy)]
pub enum Order {
    OnBox(BoxOrder),
    Piece,
}

// The words of a panel: its family, its group and its unit.
const PANEL: [Kind; 3] = [Kind::Family, Kind::Number(255), Kind::Number(255)];

// "LINK AREA HEX"
const MESSAGE: [Kind; 3] = [Kind::Number(ANY), Kind::Number(AREA), Kind::Hex];

// "AREA CATEGORY PRODUCT SERIAL POWER LOCATION IP IP1 IP2 IP3 IP4 ERROR REGION NAME GROUP UNIT"
const WRITE: [Kind; 16] = [
    Kind::Number(AREA),
    Kind::Number(255),
    Kind::Hex,
    Kind::Number(ANY),
    Kind::Number(65535),
    Kind::Hex,
    Kind::Number(ANY),
    Kind::Number(ANY),
    Kind::Number(ANY),
    Kind::Number(ANY),
    Kind::Number(ANY),
    Kind::Number(65535),
    Kind::Hex,
    Kind::Hex,
    Kind::Number(255),
    Kind::Number(255),
];

// The rows of the other orders: a row is a word, the kinds of the words behind it, and the order that it is.
struct Row {
    word: &'static [u8],
    kinds: &'static [Kind],
    order: Order,
}

const ROWS: [Row; 10] = [
    Row {
        word: b"rs232",
        kinds: &MESSAGE,
        order: Order::OnBox(BoxOrder::Rs232),
    },
    Row {
        word: b"kjw",
        kinds: &MESSAGE,
        order: Order::OnBox(BoxOrder::Kjw),
    },
    Row {
        word: b"tcp",
        kinds: &MESSAGE,
        order: Order::OnBox(BoxOrder::Tcp),
    },
    Row {
        word: b"udp",
        kinds: &[Kind::Hex],
        order: Order::OnBox(BoxOrder::Udp),
    },
    Row {
        word: b"show",
        kinds: &[Kind::Number(ANY)],
        order: Order::OnBox(BoxOrder::Show),
    },
    Row {
        word: b"advert",
        kinds: &[Kind::Hex],
        order: Order::OnBox(BoxOrder::Advert),
    },
    Row {
        word: b"write",
        kinds: &WRITE,
        order: Order::OnBox(BoxOrder::Write),
    },
    Row {
        word: b"sum",
        kinds: &[Kind::Hex],
        order: Order::OnBox(BoxOrder::Sum),
    },
    Row {
        word: b"piece",
        kinds: &[Kind::Link, Kind::Number(AREA), Kind::Hex],
        order: Order::Piece,
    },
    Row {
        word: b"plain",
        kinds: &[Kind::Hex],
        order: Order::OnBox(BoxOrder::Plain),
    },
];

// Whether a line is the order of that word, with a word of each kind behind it.
#[tactic(auto, unfolding(crate::specs::Orders::asks))]
fn is_asked(line: &[u8], word: &[u8], kinds: &[Kind]) -> bool
    ensures { result ≡ asks word.now kinds.now line.now }
{
    word_at(line, 0) == word && are_shaped(line, kinds)
}

fn is_box(line: &[u8]) -> bool
    ensures { result ≡ asks_box line.now }
{
    let n = panels_in(line);
    n <= 16 && is_asked(line, b"box", [PANEL; 16][..n].as_flattened())
}

// The first of the rows that the line is, and `unread` where it is none.
fn first_of(rows: &[Row], line: &[u8]) -> Order
    ensures { result ≡ order_in (map lent rows.now) line.now }
{
    for row in rows {
        if is_asked(line, row.word, row.kinds) {
            return row.order;
        }
    }
    Order::OnBox(BoxOrder::Unread)
}

fn order_in(line: &[u8]) -> Order
    ensures { result ≡ order_in order_rows line.now }
{
    first_of(&ROWS, line)
}

#[tactic(auto, using(std::proofs::lemmas::Bool::Decides::nat_tests), unfolding(crate::specs::Orders::is_passed_over))]
fn is_passed_over(line: &[u8]) -> bool
    ensures { result ≡ is_passed_over line.now }
{
    matches!(line, [] | [b'#', ..])
}

// Which order a line is.
#[tactic(auto, unfolding(crate::specs::Orders::order_of))]
pub fn order_of(line: &[u8]) -> Order
    ensures { result ≡ order_of line.now }
{
    if is_passed_over(line) {
        return Order::OnBox(BoxOrder::Passed);
    }
    if 4096 < line.len() {
        return Order::OnBox(BoxOrder::Unread);
    }
    if is_box(line) {
        return Order::OnBox(BoxOrder::Box);
    }
    order_in(line)
}
