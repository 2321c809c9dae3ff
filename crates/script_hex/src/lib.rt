// HEX, the words that write bytes: which they are, and what a digit is worth (docs/SCRIPTS.md, "Lines").
#![tactic(auto)]

ghost use Rattle.std.specs.Prelude.{◌≡◌, ◌<◌};
ghost use Rattle.laws.specs.Lists.{every};
ghost use Rattle.script_hex.specs.Hex.{is_hex_digit, hex_value, is_hex};

// "hex digits, either case"
#[tactic(auto, using(std::proofs::lemmas::Bool::Decides::nat_tests), unfolding(crate::specs::Hex::is_hex_digit, decimals::specs::Decimals::is_digit))]
fn is_hex_digit(b: u8) -> bool
    ensures { result ≡ is_hex_digit b }
{
    matches!(b, b'0'..=b'9' | b'A'..=b'F' | b'a'..=b'f')
}

#[tactic(auto, using(std::proofs::lemmas::Bool::Decides::nat_tests), unfolding(crate::specs::Hex::hex_value, decimals::specs::Decimals::is_digit))]
pub fn hex_value(b: u8) -> u8
    ensures { (result ≡ hex_value b) × (result < 16) }
{
    match b {
        b'0'..=b'9' => b - b'0',
        b'A'..=b'F' => b - b'A' + 10,
        b'a'..=b'f' => b - b'a' + 10,
        _ => 0,
    }
}

fn are_hex_digits(w: &[u8]) -> bool
    ensures { result ≡ every is_hex_digit w.now }
{
    w.iter().all(|b| is_hex_digit(*b))
}

#[tactic(auto, using(std::proofs::lemmas::Bool::Decides::nat_tests), unfolding(crate::specs::Hex::is_hex))]
pub fn is_hex(w: &[u8]) -> bool
    ensures { result ≡ is_hex w.now }
{
    if w == b"-".as_slice() {
        return true;
    }
    if !(1..=2048).contains(&w.len()) {
        return false;
    }
    w.len() % 2 == 0 && are_hex_digits(w)
}
