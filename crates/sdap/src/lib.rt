// The SDAP advert of 122 bytes: its fields, the rules that reader and writer share, and the writer's answer (document 01, "SDAP advert, 122 bytes").
#![tactic(auto)]

ghost use Rattle.std.specs.Prelude.{◌≡◌};
ghost use Rattle.sdap.specs.Layout.{lent_of};
ghost use Rattle.sdap.specs.Rules.{is_text, are_texts, is_category, is_filled, verdict, text_length, is_sized, write_answer};

use terms::{Answer, GroupId, UnitId};

// The fields of an advert, in the order of its bytes.
#[derive(Clone, Copy)]
pub struct Advert {
    pub category: u8,
    pub product: [u8; 12],
    pub serial: u32,
    pub power: u16,
    pub location: [u8; 24],
    pub connected: u32,
    pub accepted: [u32; 4],
    pub error: u16,
    pub region: [u8; 24],
    pub name: [u8; 24],
    pub group: GroupId,
    pub unit: UnitId,
}

// What the reader gives: the answer, and the fields, "all zero when refused". So there are fields beside a refusal too, and this is no `Result`.
#[derive(Clone, Copy)]
pub struct Read {
    pub answer: Answer,
    pub fields: Advert,
}

// The same fields with the texts lent, as a caller hands them to the writer and as they lie in the bytes that the reader is given. Here a
// text can be of any length, so that the writer can refuse one that is not of its 12 or 24 bytes.
#[derive(Clone, Copy)]
pub struct Fields<'a> {
    pub category: u8,
    pub product: &'a [u8],
    pub serial: u32,
    pub power: u16,
    pub location: &'a [u8],
    pub connected: u32,
    pub accepted: [u32; 4],
    pub error: u16,
    pub region: &'a [u8],
    pub name: &'a [u8],
    pub group: GroupId,
    pub unit: UnitId,
}

// "A nonzero byte after a 00h in a text": whether there is none. If there is one, then one stands directly behind a 00h. There is no way
// out of the loop, so that the compiler asks many at once: it does so by places, and not over pairs of an iterator.
fn is_text(t: &[u8]) -> bool
    ensures { result ≡ is_text t.now }
{
    let mut ok = true;
    for i in 1..t.len() {
        ok &= (t[i - 1] != 0) | (t[i] == 0);
    }
    ok
}

// A monitor or a controller.
#[tactic(auto, unfolding(crate::specs::Rules::is_category))]
fn is_category(c: u8) -> bool
    ensures { result ≡ is_category c }
{
    matches!(c, 11 | 12)
}

// How many bytes of a text stand before its first 00h.
pub fn text_length(t: &[u8]) -> usize
    ensures { result ≡ text_length t.now }
{
    t.iter().position(|b| *b == 0).unwrap_or(t.len())
}

impl<'a> Fields<'a> {
    // The four texts are texts.
    #[tactic(auto, unfolding(crate::specs::Rules::are_texts))]
    fn are_texts(&self) -> bool
        ensures { result ≡ are_texts (lent_of self.now) }
    {
        is_text(self.product)
            && is_text(self.location)
            && is_text(self.region)
            && is_text(self.name)
    }

    // Power and error are 0 or 1, and the four texts are texts.
    #[tactic(auto, unfolding(crate::specs::Rules::is_filled))]
    fn is_filled(&self) -> bool
        ensures { result ≡ is_filled (lent_of self.now) }
    {
        self.power <= 1 && self.error <= 1 && self.are_texts()
    }

    // The text areas have their 12 or 24 bytes.
    #[tactic(auto, unfolding(crate::specs::Rules::is_sized))]
    fn is_sized(&self) -> bool
        ensures { result ≡ is_sized (lent_of self.now) }
    {
        self.product.len() == 12
            && self.location.len() == 24
            && self.region.len() == 24
            && self.name.len() == 24
    }

    // The rules that reader and writer share: 4 for the category, 5 for the rest.
    #[tactic(auto, unfolding(crate::specs::Rules::verdict))]
    pub fn verdict(&self) -> Answer
        ensures { result ≡ verdict (lent_of self.now) }
    {
        if !is_category(self.category) {
            return Answer::NotForUs;
        }
        if !self.is_filled() {
            return Answer::EnvelopeWrong;
        }
        Answer::Done
    }

    // The advert writer's answer, for an area of so many bytes.
    #[tactic(auto, unfolding(crate::specs::Rules::write_answer))]
    pub fn write_answer(&self, room: usize) -> Answer
        ensures { result ≡ write_answer room (lent_of self.now) }
    {
        if room < 122 {
            return Answer::AreaTooSmall;
        }
        if !self.is_sized() {
            return Answer::WrongLength;
        }
        self.verdict()
    }
}
