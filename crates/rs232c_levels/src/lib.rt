// RS-232C: 40h carried out on a W panel's white balance (document 01, "RS-232C (002, 004)").
#![tactic(auto)]

ghost use Rattle.std.specs.Prelude.{◌≡◌, ◌<◌, ◌≤◌, None, get_or};
ghost use Rattle.rs232c_asks.specs.Asks.{values_of};
ghost use Rattle.rs232c_levels.specs.Levels.{gain_of, bias_of, decode, balanced_by};

use octets::ones_of;
use panels::Balance;
use std::array;

// 40h: value j of those that follow the mask, low byte first; the checksum is no part of a value.
#[tactic(auto, using(crate::proofs::Values::value_is, crate::proofs::Values::no_value))]
fn value_at(m: &[u8], j: usize) -> u16
    requires { j ≤ 8 }
    ensures { result ≡ get_or (values_of m.now) j 0 }
{
    if m.len() < 9 + 2 * j {
        return 0;
    }
    u16::from_le_bytes([m[6 + 2 * j], m[7 + 2 * j]])
}

// 40h: what is said of place k of the mask; the ones below its bit say which value is meant.
#[tactic(auto, using(crate::proofs::Decode::decode_at))]
fn said(m: &[u8], mask: u8, k: usize) -> Option<u16>
    requires { k < 6 }
    ensures { result ≡ get_or (decode 6 mask (values_of m.now)) k None }
{
    if (mask >> k) % 2 != 1 {
        return None;
    }
    Some(value_at(m, ones_of(mask % (1 << k))))
}

// "A gain is taken modulo 4096."
fn gain_of(v: u16) -> u16
    ensures { result ≡ gain_of v }
{
    v % 4096
}

// "A bias is taken modulo 2048, and 1024 or more has 2048 subtracted."
fn bias_of(v: u16) -> i16
    ensures { result ≡ bias_of v }
{
    let r = (v % 2048) as i16;
    if r < 1024 { r } else { r - 2048 }
}

// 40h carried out.
#[tactic(auto, unfolding(crate::specs::Levels::balanced_by))]
pub fn rebalance(m: &[u8], mask: u8, b: Balance) -> Balance
    ensures { result ≡ balanced_by mask (values_of m.now) b }
{
    Balance {
        gains: array::from_fn(|k| said(m, mask, k).map_or(b.gains[k], gain_of)),
        biases: array::from_fn(|k| said(m, mask, 3 + k).map_or(b.biases[k], bias_of)),
    }
}
