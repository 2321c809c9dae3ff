// Decimals in and out: what digits write, and the digits that write a number.
#![tactic(auto)]

ghost use Rattle.std.specs.Prelude.{◌≡◌, true, cond, ◌+◌, ◌-◌, ◌/◌, ◌%◌, ◌^◌, ◌<◌, ◌≤◌, ltb, length, take};
ghost use Rattle.laws.specs.Lists.{every};
ghost use Rattle.decimals.specs.Decimals.{is_digit, decimal, in_digits, read_digits, leads_zero, up_to, spelled};
ghost use Rattle.decimals.specs.Plain.{width};

// A text of at most N bytes: so many bytes, then zeros.
#[derive(Clone, Copy)]
pub struct Text<const N: usize> {
    pub bytes: [u8; N],
    pub len: usize,
}

impl<const N: usize> Text<N> {
    // The bytes of the text.
    pub fn as_slice(&self) -> &[u8]
        ensures { result.now ≡ take self.now.len self.now.bytes }
    {
        &self.bytes[..self.len.min(N)]
    }
}

// Decimal digits and nothing else.
fn are_digits(p: &[u8]) -> bool
    ensures { result ≡ every is_digit p.now }
{
    p.iter().all(|b| b.is_ascii_digit())
}

// The number that at most sixteen digits write.
fn number_in(p: &[u8]) -> u64
    requires p_len_bound { length p.now ≤ 16 }
    requires p_value { every is_digit p.now ≡ true }
    ensures { result ≡ decimal p.now }
{
    let mut v = 0;
    for digit in p {
        v = v * 10 + (*digit - b'0') as u64;
    }
    v
}

// The number that one to sixteen digits write; sixteen always fit the word.
#[tactic(auto, unfolding(crate::specs::Decimals::read_digits))]
pub fn read_digits(p: &[u8]) -> Option<u64>
    ensures { result ≡ read_digits p.now }
{
    if !(1..=16).contains(&p.len()) || !are_digits(p) {
        return None;
    }
    Some(number_in(p))
}

// A leading zero: `0` alone has none.
#[tactic(auto, unfolding(crate::specs::Decimals::leads_zero))]
fn leads_zero(s: &[u8]) -> bool
    ensures { result ≡ leads_zero s.now }
{
    s.len() != 1 && s.first() == Some(&b'0')
}

// A number without sign or leading zero, up to a most. One of more than sixteen digits is over any most.
#[tactic(auto, using(crate::proofs::Numerals::zero_no_number, crate::proofs::Numerals::plain_number))]
pub fn plain_number(s: &[u8], most: u32) -> Option<u64>
    ensures { result ≡ up_to most s.now }
{
    if leads_zero(s) {
        return None;
    }
    read_digits(s).filter(|v| *v <= u64::from(most))
}

// The powers of ten that a word holds, in the order of its ten digits: the highest first.
const POWERS: [u32; 10] = [
    1000000000, 100000000, 10000000, 1000000, 100000, 10000, 1000, 100, 10, 1,
];

// How often a power of ten comes off in one turn: once, or not at all where the rest is smaller.
fn comes_off(power: u32, rest: u32) -> u8
    ensures { result ≡ cond (ltb rest power) 0 1 }
{
    u8::from(power <= rest)
}

// The ten digits of a number that has only `0` before the place `from`: each power of ten is taken off as often as it goes. One loop
// serves all powers, and has no branch: of a loop for each power, and of branches in this one, the compiler makes divisions again.
fn ten_digits(v: u32, from: usize) -> [u8; 10]
    requires from_bound { from ≤ 10 }
    requires v_bound { v < 10 ^ (10 - from) }
    ensures { result ≡ in_digits 10 v }
{
    // The table is built where it is named: here, once, and not in each turn.
    let powers = POWERS;
    let mut d = [b'0'; 10];
    let mut rest = v;
    let mut n = from;
    while n < 10 {
        let power = powers[n];
        let once = comes_off(power, rest);
        rest -= power * once as u32;
        d[n] += once;
        n += 1 - once as usize;
    }
    d
}

// The last four digits of a number.
pub fn digits4(v: u16) -> [u8; 4]
    ensures { result ≡ in_digits 4 v }
{
    let d = ten_digits(v as u32, 5);
    [d[6], d[7], d[8], d[9]]
}

// A byte's number without leading zeros.
#[tactic(auto, unfolding(crate::specs::Decimals::spelled, crate::specs::Texts::text, crate::specs::Decimals::numeral, crate::specs::Decimals::in_digits))]
pub fn numeral_of(v: u8) -> Text<3>
    ensures { result ≡ spelled v }
{
    let d = ten_digits(v as u32, 7);
    match v {
        0..=9 => Text {
            bytes: [d[9], 0, 0],
            len: 1,
        },
        10..=99 => Text {
            bytes: [d[8], d[9], 0],
            len: 2,
        },
        _ => Text {
            bytes: [d[7], d[8], d[9]],
            len: 3,
        },
    }
}

// How many digits a number takes.
#[tactic(auto, using(crate::proofs::Plain::width_is, crate::proofs::Plain::width_zero))]
pub fn width_of(v: u32) -> usize
    ensures { result ≡ width v }
{
    v.checked_ilog10().map_or(1, |n| n as usize + 1)
}

// The digit of a number at a place, 0 the last.
#[tactic(auto, using(crate::proofs::Powers::no_digit_past))]
pub fn digit_at(v: u32, n: usize) -> u8
    ensures { result ≡ 0x30 + v / 10 ^ n % 10 }
{
    if 9 < n {
        return b'0';
    }
    let d = ten_digits(v, 0);
    d[9 - n]
}
