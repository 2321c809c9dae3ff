// SDCP: what a packet asks, whoever it is addressed to and whatever the panel (document 01, "SDCP and VMC (001, 002, 004)"; document
// 02, §5 and §8).
#![tactic(auto)]

ghost use Rattle.std.specs.Prelude.{◌≡◌, ◌≤◌, length};
ghost use Rattle.vmc_asks.specs.Asks.{read_data};
ghost use Rattle.sdcp_asks.specs.declared.Fault.TheVariants.{Broken};
ghost use Rattle.sdcp_asks.specs.Asks.{fault_answer, is_ours, envelope_of, data_of, in_words, checked, heard_of, cast_of};

use octets::number2;
use terms::{Answer, Part};
use vmc_asks::{Order, asks_status, read_data};

// Version, category and community, with which a packet begins.
pub const FRONT: [u8; 6] = *b"\x03\x0BSONY";

// Why a packet orders nothing, whoever is addressed.
#[derive(Clone, Copy)]
pub enum Fault {
    // 3 and 4, and by UDP 8: no reply
    Refused(Answer),
    // 9 to 12
    Broken(Part),
    // 6
    NotUnderstood,
}

// A part of the envelope that is wrong.
impl From<Part> for Fault {
    ghost from_gives = { λ part fault. fault ≡ Broken part };

    fn from(part: Part) -> Fault {
        Fault::Broken(part)
    }
}

// What the box answers to a packet that orders nothing.
impl From<Fault> for Answer {
    ghost from_gives = { λ fault answer. answer ≡ fault_answer fault };

    fn from(fault: Fault) -> Answer {
        match fault {
            Fault::Refused(answer) => answer,
            Fault::Broken(part) => Answer::PartWrong(part),
            Fault::NotUnderstood => Answer::NotUnderstood,
        }
    }
}

// Version, category and community.
pub fn is_ours(m: &[u8]) -> bool
    ensures { result ≡ is_ours m.now }
{
    m.starts_with(&FRONT)
}

// Request, item and data length, in this order.
#[tactic(auto, unfolding(crate::specs::Asks::envelope_of))]
fn envelope_of(m: &[u8]) -> Result<(), Part>
    requires { 13 ≤ length m.now }
    ensures { result ≡ envelope_of m.now }
{
    if m[8] != 0 {
        return Err(Part::Request);
    }
    if number2(m[9], m[10]) != 0xB000 {
        return Err(Part::Item);
    }
    let size = number2(m[11], m[12]) as usize;
    if 499 < size {
        return Err(Part::TooLong);
    }
    if size != m.len() - 13 {
        return Err(Part::NotMatching);
    }
    Ok(())
}

// Length, front and envelope, in this order: the first fault, if there is one.
#[tactic(auto, unfolding(crate::specs::Asks::checked))]
fn checked(m: &[u8]) -> Result<(), Fault>
    ensures { result ≡ checked m.now }
{
    if m.len() < 13 {
        return Err(Fault::Refused(Answer::WrongLength));
    }
    if !is_ours(m) {
        return Err(Fault::Refused(Answer::NotForUs));
    }
    envelope_of(m)?;
    Ok(())
}

// What the words of the data area ask, which goes from byte 13 to the packet's end.
fn words_of(m: &[u8]) -> Result<Order, Fault>
    requires { 13 ≤ length m.now }
    ensures { result ≡ in_words (read_data (data_of m.now)) }
{
    read_data(&m[13..]).ok_or(Fault::NotUnderstood)
}

// What the packet asks.
#[tactic(auto, using(crate::proofs::Faults::is_long, crate::proofs::Faults::sound_heard, crate::proofs::Faults::fault_heard))]
pub fn hear(m: &[u8]) -> Result<Order, Fault>
    ensures { result ≡ heard_of m.now }
{
    checked(m)?;
    words_of(m)
}

// What a packet asks that came by UDP. What it asks for is looked at behind the envelope, so that 8 comes after 12 and before 6.
#[tactic(auto, using(crate::proofs::Faults::is_long, crate::proofs::Faults::sound_cast, crate::proofs::Faults::asked_cast, crate::proofs::Faults::fault_cast))]
pub fn hear_cast(m: &[u8]) -> Result<Order, Fault>
    ensures { result ≡ cast_of m.now }
{
    checked(m)?; // 3, 4 and 9 to 12
    if asks_status(&m[13..]) {
        return Err(Fault::Refused(Answer::StatusByBroadcast));
    }
    words_of(m)
}
