// Leaves that many crates use: a byte read at any place, bytes laid over an area, bytes and numbers asked, and numbers high byte first.
// Most are a method of the library with a promise in the words of the documents.
#![tactic(auto)]

ghost use Rattle.std.specs.Prelude.{◌≡◌, [], ◌∷◌, ◌≤◌, eqb, get_or};
ghost use Rattle.std.specs.Int.Count.{ones};
ghost use Rattle.laws.specs.Bytes.{laid};
ghost use Rattle.laws.specs.Lists.{every, listed, within};
ghost use Rattle.laws.specs.Numbers.{number, in_bytes};

// Whether every byte is b.
pub fn all_are(s: &[u8], b: u8) -> bool
    ensures { result ≡ every (eqb b) s.now }
{
    s.iter().all(|x| *x == b)
}

// The number that two bytes write, high byte first.
pub fn number2(high: u8, low: u8) -> u16
    ensures { result ≡ number (high ∷ low ∷ []) }
{
    u16::from_be_bytes([high, low])
}

// The two bytes that write a number.
pub fn bytes2(v: u16) -> [u8; 2]
    ensures { result ≡ in_bytes 2 v }
{
    v.to_be_bytes()
}

// Whether a number is among those listed.
pub fn is_listed(numbers: &[u8], x: u8) -> bool
    ensures { result ≡ listed numbers.now x }
{
    numbers.contains(&x)
}

// Whether each number is at most the bound at its place. Every place is asked, with no early return, so that the compiler can ask
// many at once.
pub fn are_within(numbers: &[u8], bounds: &[u8]) -> bool
    ensures { result ≡ within numbers.now bounds.now }
{
    if bounds.len() < numbers.len() {
        return false;
    }
    let mut ok = true;
    for i in 0..numbers.len() {
        ok &= numbers[i] <= bounds[i];
    }
    ok
}

// The byte at a place, 0 past the end.
pub fn byte_at(s: &[u8], i: usize) -> u8
    ensures { result ≡ get_or s.now i 0 }
{
    s.get(i).copied().unwrap_or(0)
}

// Lays bytes over an area from a place on; an area too short for them is left as it is. A loop, and not the library's copy: of its host
// the archive for C asks memcpy and memset, and no memmove.
pub fn lay(out: &mut [u8], at: usize, bytes: &[u8])
    ensures { out.new ≡ laid out.old at bytes.now }
{
    if out.len() < bytes.len() {
        return;
    }
    if out.len() - bytes.len() < at {
        return;
    }
    for i in 0..bytes.len() {
        out[at + i] = bytes[i];
    }
}

// The number of ones in a byte.
pub fn ones_of(x: u8) -> usize
    ensures { (result ≡ ones x) × (result ≤ 8) }
{
    u8::count_ones(x) as usize
}
