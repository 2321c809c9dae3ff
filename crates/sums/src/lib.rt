// The sum of bytes, and the checksum test.
#![tactic(auto)]

ghost use Rattle.std.specs.Prelude.{◌≡◌, ◌%◌};
ghost use Rattle.sums.specs.Sums.{sum_of, sums_to_zero};

// The sum of an area's bytes modulo 256.
#[tactic(auto, using(crate::proofs::Folds::folded))]
pub fn sum_of(area: &[u8]) -> u8
    ensures { result ≡ sum_of area.now % 256 }
{
    area.iter().fold(0u8, |sum, byte| sum.wrapping_add(*byte))
}

// "The checksum test says yes exactly when the bytes of its area sum to 0 modulo 256; an empty area is a yes."
pub fn sums_to_zero(area: &[u8]) -> bool
    ensures { result ≡ sums_to_zero area.now }
{
    sum_of(area) == 0
}
