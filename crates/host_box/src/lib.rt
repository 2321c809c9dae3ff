// The box as a C host calls it, by value: a configuration, a message by the number of its way in, and the panel behind a link.
#![tactic(auto)]

ghost use Rattle.std.specs.Prelude.{◌≡◌, eqb};
ghost use Rattle.terms.specs.Answers.{number_of, answer_place};
ghost use Rattle.configure.specs.Configure.{configured};
ghost use Rattle.host_box.specs.Called.{made_of, way_of, called, numbers_of, panel_behind};

use addresses::Line;
use box_rules::is_valid;
use configure::configure;
use panels::{DisplayBox, Panel, zero_panel};
use terms::Answer;
use ways_in::{Way, take};

// What a message did: the box after it, the answer's number and its place in the message, the reply's length, and whether the number is 0.
#[derive(Clone, Copy)]
pub struct Outcome {
    pub after: DisplayBox,
    pub answer: u8,
    pub place: u16,
    pub len: usize,
    pub done: bool,
}

// What a configuration gave: the box, and the answer's number.
#[derive(Clone, Copy)]
pub struct Made {
    pub made: DisplayBox,
    pub answer: u8,
}

// An answer's number, and its place in the message.
#[derive(Clone, Copy)]
struct AnswerNumbers {
    number: u8,
    place: u16,
}

// What was done has 0 for both, and its answer is not asked: so its box goes on without a copy.
fn answer_numbers(answer: Answer, done: bool) -> AnswerNumbers
    requires { done ≡ eqb (number_of answer) 0 }
    ensures { result ≡ record { number = number_of answer; place = answer_place answer } }
{
    if done {
        return AnswerNumbers {
            number: 0,
            place: 0,
        };
    }
    AnswerNumbers {
        number: answer.number(),
        place: answer.place(),
    }
}

// A new box: three bytes a panel.
pub fn make_box(configuration: &[u8]) -> Made
    ensures { result ≡ made_of (configured configuration.now) }
{
    let c = configure(configuration);
    Made {
        made: c.made,
        answer: c.answer.number(),
    }
}

// 1 is the RS-232C port of the link's panel, 2 its KJW link, 3 TCP on its link, 4 UDP. There is no other way in.
#[tactic(auto, unfolding(crate::specs::Called::way_of))]
fn way_of(number: u8) -> Option<Way>
    ensures { result ≡ way_of number }
{
    match number {
        1 => Some(Way::By(Line::Rs232c)),
        2 => Some(Way::By(Line::Kjw)),
        3 => Some(Way::By(Line::Tcp)),
        4 => Some(Way::Udp),
        _ => None,
    }
}

// A message by the number of its way in.
pub fn take_message(b: DisplayBox, way: u8, link: usize, m: &[u8], area: &mut [u8]) -> Outcome
    ensures { (result ≡ numbers_of (called b way link m.now area.old))
        × (area.new ≡ (called b way link m.now area.old).area) }
{
    match way_of(way) {
        Some(w) => {
            let t = take(b, w, link, m, area);
            let n = answer_numbers(t.answer, t.done);
            Outcome {
                after: t.after,
                answer: n.number,
                place: n.place,
                len: t.len,
                done: t.done,
            }
        }
        None => {
            let n = answer_numbers(Answer::NoSuchPanel, false);
            Outcome {
                after: b,
                answer: n.number,
                place: n.place,
                len: 0,
                done: false,
            }
        }
    }
}

// The panel behind a link, or all zeros where there is none.
#[tactic(auto, unfolding(crate::specs::Called::panel_behind))]
pub fn panel_behind(b: DisplayBox, link: usize) -> Panel
    ensures { result ≡ panel_behind b link }
{
    if !is_valid(b) {
        return zero_panel();
    }
    if !(1..=b.count).contains(&link) {
        return zero_panel();
    }
    b.panels[link - 1]
}
