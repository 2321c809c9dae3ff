// The box: a message by its way in, and each is the one step of crates/steps (document 01, "The box and its messages").
#![tactic(auto)]

ghost use Rattle.std.specs.Prelude.{◌≡◌, false, [], ◌<◌, ◌≤◌, eqb, set};
ghost use Rattle.laws.specs.Runs.{first_each};
ghost use Rattle.terms.specs.Answers.{number_of};
ghost use Rattle.steps.specs.Messages as messages;
ghost use Rattle.steps.specs.Step.{with_w, with_panels, panel_at, turn};
ghost use Rattle.vmc.specs.Orders.{carried};
ghost use Rattle.box_rules.specs.Pairs.{ids_in, judged};
ghost use Rattle.ways_in.specs.Promise.{Steps, message_of, outcome_of, came_by};
ghost use Rattle.ways_in.specs.Turns.{Acts, resting, heeded};

use addresses::{Line, any_called, door_of, is_called, to_nobody};
use box_rules::{Ids, NO_IDS, called_by, judge};
use panels::{DisplayBox, Panel};
use sdcp::take_packet;
use sdcp_asks::hear_cast;
use terms::Answer;
use vmc::obey;
use vmc_asks::Order;

// The ways in: those that have a link and a reply area, and UDP.
#[derive(Clone, Copy)]
pub enum Way {
    By(Line),
    Udp,
}

// What a message did: the box after it, the answer, the reply's length, and whether the answer is 0: a refusal has nothing to store,
// and where it is made that is known without asking.
#[derive(Clone, Copy)]
pub struct Outcome {
    pub after: DisplayBox,
    pub answer: Answer,
    pub len: usize,
    pub done: bool,
}

// The answer is 0.
fn is_done(a: Answer) -> bool
    ensures { result ≡ eqb (number_of a) 0 }
{
    matches!(a, Answer::Done)
}

// A refusal leaves the box as it was, and there is no reply. That it is not done is written out: so a caller that stores what was
// done has no copy to make here.
fn refused(b: DisplayBox, answer: Answer) -> Outcome
    requires { eqb (number_of answer) 0 ≡ false }
    ensures { result ≡ resting b answer }
{
    Outcome {
        after: b,
        answer,
        len: 0,
        done: false,
    }
}

// What the panels of a box are called by, of what the judging gave; those of a box that breaks the rules by nothing. The box itself is not
// handed on: it would be copied once more for each message.
#[tactic(auto, unfolding(box_rules::specs::Pairs::ids_in))]
fn ids_of(found: Option<[Ids; 8]>) -> [Ids; 8]
    ensures { (b : DisplayBox) → found ≡ judged b → result ≡ ids_in b }
{
    found.unwrap_or(NO_IDS)
}

// The panel at place i: here a panel is copied out of a box.
fn panel_at(b: DisplayBox, i: usize) -> Panel
    requires { i < 8 }
    ensures { result ≡ panel_at i b }
{
    b.panels[i]
}

// The box with another panel at place i: here a panel is copied into a box.
fn with_panel(b: DisplayBox, i: usize, p: Panel) -> DisplayBox
    requires { i < 8 }
    ensures { result ≡ with_panels b (set b.panels i p) }
{
    let mut panels = b.panels;
    panels[i] = p;
    DisplayBox { panels, ..b }
}

// What a message did to the record of its protocol is what it did to the panel that has the record.
fn on_panel<R, F: FnOnce(R) -> Panel>(t: terms::Outcome<R>, panel: F) -> terms::Outcome<Panel>
    requires { F.pre panel t.after }
    ensures after { F.post panel t.after result.after }
    ensures answer { result.answer ≡ t.answer }
    ensures len { result.len ≡ t.len }
{
    terms::Outcome {
        after: panel(t.after),
        answer: t.answer,
        len: t.len,
    }
}

// A panel's turn: a frame on its RS-232C port or its KJW link, or a packet by TCP.
fn act(line: Line, p: Panel, m: &[u8], area: &mut [u8]) -> terms::Outcome<Panel>
    ensures { Acts (turn (message_of line 0 m.now area.old) p) area.old result area.new }
{
    match line {
        Line::Rs232c => {
            let t = rs232c::take_frame(p.w, m, area);
            on_panel(t, |w| Panel { w, ..p })
        }
        Line::Kjw => {
            let t = kjw::take_frame(p.k, m, area);
            on_panel(t, |k| Panel { k, ..p })
        }
        Line::Tcp => {
            let t = take_packet(p.w, m, area);
            on_panel(t, |w| Panel { w, ..p })
        }
    }
}

// A message with a link: the door is shut, or one panel takes its turn.
fn take_linked(b: DisplayBox, line: Line, link: usize, m: &[u8], area: &mut [u8]) -> Outcome
    ensures { Steps b (message_of line link m.now area.old) result area.new }
{
    let ids = ids_of(judge(b));
    match door_of(line, ids, link, m, area.len()) {
        Err(answer) => refused(b, answer),
        Ok(i) => {
            let p = panel_at(b, i);
            let t = act(line, p, m, area);
            let after = with_panel(b, i, t.after);
            Outcome {
                after,
                answer: t.answer,
                len: t.len,
                done: is_done(t.answer),
            }
        }
    }
}

// A panel after an order.
fn obeyed(o: Order, p: Panel) -> Panel
    ensures { result ≡ with_w p (carried o p.w) }
{
    Panel {
        w: obey(p.w, o),
        ..p
    }
}

// The order carried out on each of the first n panels that is called.
fn obey_all(m: &[u8], o: Order, ps: [Panel; 8], n: usize) -> [Panel; 8]
    requires { n ≤ 8 }
    ensures { result ≡ first_each (heeded m.now o) n ps }
{
    let mut qs = ps;
    for i in 0..n {
        let p = qs[i];
        if is_called(m, called_by(p)) {
            qs[i] = obeyed(o, p);
        }
    }
    qs
}

// A packet by UDP: every panel that is called obeys, and there is no reply.
fn take_udp(b: DisplayBox, m: &[u8]) -> Outcome
    ensures { Steps b (messages.udp m.now) result [] }
{
    let ids = ids_of(judge(b));
    if !any_called(m, ids) {
        return refused(b, to_nobody(m));
    }
    match hear_cast(m) {
        Err(fault) => refused(b, Answer::from(fault)),
        Ok(o) => {
            let panels = obey_all(m, o, b.panels, b.count);
            Outcome {
                after: DisplayBox { panels, ..b },
                answer: Answer::Done,
                len: 0,
                done: true,
            }
        }
    }
}

// A message by its way in: for scripts and for C. By UDP the link says nothing, and the area keeps its bytes.
pub fn take(b: DisplayBox, way: Way, link: usize, m: &[u8], area: &mut [u8]) -> Outcome
    ensures { (result ≡ outcome_of (came_by way b link m.now area.old))
        × (area.new ≡ (came_by way b link m.now area.old).area) }
{
    match way {
        Way::By(line) => take_linked(b, line, link, m, area),
        Way::Udp => take_udp(b, m),
    }
}
