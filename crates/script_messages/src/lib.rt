// The orders that are messages to the box (docs/SCRIPTS.md).
#![tactic(auto)]

ghost use Rattle.std.specs.Prelude.{◌≡◌};
ghost use Rattle.steps.specs.Messages as messages;
ghost use Rattle.steps.specs.Step.{step};
ghost use Rattle.ways_in.specs.Promise.{message_of};
ghost use Rattle.script_words.specs.Words.{bytes_at};
ghost use Rattle.script_answers.specs.Answers.{Answers};
ghost use Rattle.script_messages.specs.Messages.{stepped, messaged, spread};

use addresses::Line;
use panels::DisplayBox;
use script_answers::{Answered, say_answer, say_reply};
use script_text::FILLER;
use script_words::{ANY, AREA, bytes_at, number_at};
use ways_in::{Way, take};

// A message with its area, and what went back.
pub fn carry(
    line: Line,
    b: DisplayBox,
    link: usize,
    m: &[u8],
    area: &mut [u8],
    out: &mut [u8],
) -> Answered<DisplayBox>
    ensures answers { Answers (stepped (step b (message_of line link m.now area.old))) result out.old out.new }
    ensures lent { area.new ≡ (step b (message_of line link m.now area.old)).back.area }
{
    let t = take(b, Way::By(line), link, m, area);
    say_reply(t.after, t.answer, t.len, area, out)
}

pub fn answer_message(by: Line, b: DisplayBox, line: &[u8], out: &mut [u8]) -> Answered<DisplayBox>
    ensures { Answers (messaged by b line.now) result out.old out.new }
{
    let mut bytes = [0u8; 1024];
    let n = bytes_at(line, 3, &mut bytes);
    let mut area = [FILLER; 1024];
    let room = number_at(line, 2, AREA) as usize;
    let link = number_at(line, 1, ANY) as usize;
    carry(by, b, link, &bytes[..n], &mut area[..room], out)
}

pub fn answer_udp(b: DisplayBox, line: &[u8], out: &mut [u8]) -> Answered<DisplayBox>
    ensures { Answers (spread (step b (messages.udp (bytes_at 1 line.now)))) result out.old out.new }
{
    let mut bytes = [0u8; 1024];
    let n = bytes_at(line, 1, &mut bytes);
    let mut unused = [0u8; 1];
    let t = take(b, Way::Udp, 0, &bytes[..n], &mut unused);
    say_answer(t.after, out, t.answer)
}
