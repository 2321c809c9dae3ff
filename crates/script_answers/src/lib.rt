// What a line answers: the box after it, and a text of its own (docs/SCRIPTS.md).
#![tactic(auto)]

ghost use Rattle.script_answers.specs.Answers.{Answers, writes, answer_text, replied};
ghost use Rattle.script_answers.specs.Endings.{Ends};

use panels::DisplayBox;
use script_text::{put, put_placed, put_reply};
use terms::Answer;

// What a line did: what there is after it, as the box, and the length of its text.
#[derive(Clone, Copy)]
pub struct Answered<S> {
    pub after: S,
    pub len: usize,
}

// The text ends here: a line of its own.
pub fn ended(b: DisplayBox, out: &mut [u8], at: usize) -> Answered<DisplayBox>
    ensures { Ends b at result out.old out.new }
{
    let len = put(out, at, b"\n");
    Answered { after: b, len }
}

// A short text, and the box as it is.
pub fn say(b: DisplayBox, out: &mut [u8], text: &[u8]) -> Answered<DisplayBox>
    ensures { Answers (writes b text.now) result out.old out.new }
{
    let at = put(out, 0, text);
    ended(b, out, at)
}

// An answer alone: its number, and its place.
pub fn say_answer(b: DisplayBox, out: &mut [u8], answer: Answer) -> Answered<DisplayBox>
    ensures { Answers (writes b (answer_text answer)) result out.old out.new }
{
    let at = put_placed(out, 0, answer.number(), answer.place());
    ended(b, out, at)
}

// What went back: so many bytes of the area's front, or all that there are.
pub fn say_reply(
    b: DisplayBox,
    answer: Answer,
    len: usize,
    area: &[u8],
    out: &mut [u8],
) -> Answered<DisplayBox>
    ensures { Answers (writes b (replied answer len area.now)) result out.old out.new }
{
    let n = len.min(area.len());
    let at = put_reply(
        out,
        0,
        answer.number(),
        answer.place(),
        &area[..n],
        &area[n..],
    );
    ended(b, out, at)
}
