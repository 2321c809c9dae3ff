// The terms that every part of the box shares: its answers with their numbers, and the two kinds of ID.
#![tactic(auto)]

ghost use Rattle.std.specs.Prelude.{◌≡◌};
ghost use Rattle.terms.specs.Answers.{part_number, part_place, number_of, answer_place};

// The part of a message's envelope that is wrong (document 02, §8).
#[derive(Clone, Copy, PartialEq, Eq)]
pub enum Part {
    // 9 request byte
    Request,
    // 10 item
    Item,
    // 11 data length over 499
    TooLong,
    // 12 data length not matching
    NotMatching,
    // 13 RS-232C byte count
    Count,
    // 14 RS-232C checksum, and the place where it stands
    Checksum(u16),
}

// What the box answers to a message, a configuration or an advert (document 01, "Answer numbers").
#[derive(Clone, Copy, PartialEq, Eq)]
pub enum Answer {
    // 0 carried out
    Done,
    // 1 reply area under 512 bytes (advert writer: under 122)
    AreaTooSmall,
    // 2 no panel with that link number, or it is of the other family
    NoSuchPanel,
    // 3 too short to be a message, or wrong fixed length
    WrongLength,
    // 4 not for us
    NotForUs,
    // 5 envelope wrong: an advert's alone, since document 02, §8
    EnvelopeWrong,
    // 6 contents not understood
    NotUnderstood,
    // 7 configuration breaks a rule of the first section
    BadConfiguration,
    // 8 a status asked for by UDP (document 02, §5)
    StatusByBroadcast,
    // 9 to 14 a part of a message's envelope wrong (document 02, §8)
    PartWrong(Part),
}

impl Part {
    // The number of a part that is wrong.
    fn number(self) -> u8
        ensures { result ≡ part_number self }
    {
        match self {
            Part::Request => 9,
            Part::Item => 10,
            Part::TooLong => 11,
            Part::NotMatching => 12,
            Part::Count => 13,
            Part::Checksum(_) => 14,
        }
    }

    // Where the part begins in the message, counted from 0.
    fn place(self) -> u16
        ensures { result ≡ part_place self }
    {
        match self {
            Part::Request => 8,
            Part::Item => 9,
            Part::TooLong => 11,
            Part::NotMatching => 11,
            Part::Count => 1,
            Part::Checksum(place) => place,
        }
    }
}

impl Answer {
    // The answer's number.
    pub fn number(self) -> u8
        ensures { result ≡ number_of self }
    {
        match self {
            Answer::Done => 0,
            Answer::AreaTooSmall => 1,
            Answer::NoSuchPanel => 2,
            Answer::WrongLength => 3,
            Answer::NotForUs => 4,
            Answer::EnvelopeWrong => 5,
            Answer::NotUnderstood => 6,
            Answer::BadConfiguration => 7,
            Answer::StatusByBroadcast => 8,
            Answer::PartWrong(part) => part.number(),
        }
    }

    // The place that goes with the answer: 0 but for a wrong part.
    pub fn place(self) -> u16
        ensures { result ≡ answer_place self }
    {
        match self {
            Answer::PartWrong(part) => part.place(),
            _ => 0,
        }
    }
}

// What a message did to the record R of the panel that it is for: the record after it, the answer, and the reply's length.
#[derive(Clone, Copy)]
pub struct Outcome<R> {
    pub after: R,
    pub answer: Answer,
    pub len: usize,
}

impl<R> Outcome<R> {
    // A refusal: the record as it was, and no reply.
    pub fn refused(after: R, answer: Answer) -> Outcome<R>
        ensures after { result.after ≡ after }
        ensures answer { result.answer ≡ answer }
        ensures len { result.len ≡ 0 }
    {
        Outcome {
            after,
            answer,
            len: 0,
        }
    }
}

// "A group ID is never taken for a unit ID, though each is one byte": each has a type of its own,
// and like is compared with like only.
#[repr(C)]
#[derive(Clone, Copy, PartialEq, Eq)]
pub struct GroupId(pub u8);

#[repr(C)]
#[derive(Clone, Copy, PartialEq, Eq)]
pub struct UnitId(pub u8);
