// The end of a string as some consoles send it: what is left of the data without it (document 02, §2).
#![tactic(auto)]

ghost use Rattle.std.specs.Prelude.{◌≡◌};
ghost use Rattle.trimming.specs.Trimming.{unterminated, unspaced, trimmed};

// "One final 00h is taken off if there."
#[tactic(auto, using(crate::proofs::LastByte::none_ends, crate::proofs::LastByte::all_stays, crate::proofs::LastByte::one_goes))]
fn unterminated(d: &[u8]) -> &[u8]
    ensures { result.now ≡ unterminated d.now }
{
    match d {
        [front @ .., 0x00] => front,
        _ => d,
    }
}

// "All spaces at the end", from the last one on.
#[tactic(auto, using(crate::proofs::LastByte::none_spaced, crate::proofs::LastByte::all_left, crate::proofs::LastByte::space_goes))]
fn unspaced(d: &[u8]) -> &[u8]
    ensures { result.now ≡ unspaced d.now }
{
    let mut left = d;
    while let [front @ .., b' '] = left {
        left = front;
    }
    left
}

// What is left of the data: its front.
#[tactic(auto, unfolding(crate::specs::Trimming::trimmed))]
pub fn trim(d: &[u8]) -> &[u8]
    ensures { result.now ≡ trimmed d.now }
{
    unspaced(unterminated(d))
}
