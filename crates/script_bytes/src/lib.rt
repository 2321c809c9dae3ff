// The orders on bytes alone: an advert read or written, a checksum tested (docs/SCRIPTS.md).
#![tactic(auto)]

ghost use Rattle.std.specs.Prelude.{◌≡◌};
ghost use Rattle.sdap.specs.Rules.{read_of};
ghost use Rattle.script_words.specs.Words.{number_at, bytes_at};
ghost use Rattle.script_write.specs.Wanted.{wanted};
ghost use Rattle.script_answers.specs.Answers.{Answers, writes, filler};
ghost use Rattle.script_bytes.specs.Bytes.{read_text, filled, wrote, summed};

use panels::DisplayBox;
use script_answers::{Answered, ended, say, say_answer, say_reply};
use script_fields::put_advert;
use script_text::FILLER;
use script_words::{AREA, bytes_at, number_at};
use script_write::write_fields;
use sdap_read::read_advert;
use sums::sums_to_zero;
use terms::Answer;

pub fn answer_advert(b: DisplayBox, line: &[u8], out: &mut [u8]) -> Answered<DisplayBox>
    ensures { Answers (writes b (read_text (read_of (bytes_at 1 line.now)))) result out.old out.new }
{
    let mut bytes = [0u8; 1024];
    let n = bytes_at(line, 1, &mut bytes);
    let read = read_advert(&bytes[..n]);
    if read.answer != Answer::Done {
        return say_answer(b, out, read.answer);
    }
    let at = put_advert(out, 0, &read.fields);
    ended(b, out, at)
}

// How many bytes the writer filled.
fn filled_by(answer: Answer) -> usize
    ensures { result ≡ filled answer }
{
    match answer {
        Answer::Done => 122,
        _ => 0,
    }
}

fn write_in(b: DisplayBox, line: &[u8], area: &mut [u8], out: &mut [u8]) -> Answered<DisplayBox>
    ensures { Answers (writes b (wrote (wanted line.now) area.old)) result out.old out.new }
{
    let answer = write_fields(line, area);
    let n = filled_by(answer);
    say_reply(b, answer, n, area, out)
}

pub fn answer_write(b: DisplayBox, line: &[u8], out: &mut [u8]) -> Answered<DisplayBox>
    ensures { Answers (writes b (wrote (wanted line.now) (filler (number_at 1024 1 line.now)))) result out.old out.new }
{
    let mut area = [FILLER; 1024];
    let room = number_at(line, 1, AREA) as usize;
    write_in(b, line, &mut area[..room], out)
}

pub fn answer_sum(b: DisplayBox, line: &[u8], out: &mut [u8]) -> Answered<DisplayBox>
    ensures { Answers (writes b (summed (bytes_at 1 line.now))) result out.old out.new }
{
    let mut bytes = [0u8; 1024];
    let n = bytes_at(line, 1, &mut bytes);
    if sums_to_zero(&bytes[..n]) {
        say(b, out, b"yes")
    } else {
        say(b, out, b"no")
    }
}
