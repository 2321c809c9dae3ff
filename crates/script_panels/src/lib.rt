// The orders on a box's panels: a box made, a panel shown (docs/SCRIPTS.md).
#![tactic(auto)]

ghost use Rattle.std.specs.Prelude.{◌≡◌};
ghost use Rattle.configure.specs.Configure.{configured};
ghost use Rattle.script_words.specs.Words.{number_at};
ghost use Rattle.script_boxes.specs.Boxes.{configuration_of};
ghost use Rattle.script_answers.specs.Answers.{Answers, writes};
ghost use Rattle.script_panels.specs.Panels.{boxed, is_there, shown_at};

use configure::configure;
use panels::DisplayBox;
use script_answers::{Answered, ended, say};
use script_boxes::configuration_in;
use script_show::put_panel;
use script_text::put_number_text;
use script_words::{ANY, number_at};

pub fn answer_box(line: &[u8], out: &mut [u8]) -> Answered<DisplayBox>
    ensures { Answers (boxed (configured (configuration_of line.now))) result out.old out.new }
{
    let mut bytes = [0u8; 48];
    let n = configuration_in(line, &mut bytes);
    let c = configure(&bytes[..n]);
    let at = put_number_text(out, 0, b"box ", c.answer.number() as u32);
    ended(c.made, out, at)
}

// The box has a panel of that number.
#[tactic(auto, using(std::proofs::lemmas::Bool::Decides::nat_tests), unfolding(crate::specs::Panels::is_there))]
fn is_there(count: usize, link: usize) -> bool
    ensures { result ≡ is_there count link }
{
    (1..=8).contains(&link) && link <= count
}

pub fn answer_show(b: DisplayBox, line: &[u8], out: &mut [u8]) -> Answered<DisplayBox>
    ensures { Answers (writes b (shown_at b (number_at 4294967295 1 line.now))) result out.old out.new }
{
    let link = number_at(line, 1, ANY) as usize;
    if !is_there(b.count, link) {
        return say(b, out, b"none");
    }
    let p = b.panels[link - 1];
    let at = put_panel(out, 0, p);
    ended(b, out, at)
}
