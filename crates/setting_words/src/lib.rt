// The words of the settings: which setting a name is, and which of its values a word is (document 01, "SDCP and VMC").
#![tactic(auto)]

ghost use Rattle.std.specs.Prelude.{◌≡◌};
ghost use Rattle.laws.specs.Bytes.{same, begins};
ghost use Rattle.setting_texts.specs.Names.{name_of};
ghost use Rattle.setting_words.specs.Names.{named_by, led_by, chosen_by};

use setting_texts::{lead, name, word, word_count};
use settings::NAME_COUNT;

// Whether s is the name of k. Most names are told apart by their first byte.
#[tactic(auto, using(laws::proofs::Library::same_pointwise))]
fn is_named(k: usize, s: &[u8]) -> bool
    ensures { result ≡ same (name_of k) s.now }
{
    lead(k).first() == s.first() && name(k) == s
}

// Whether a text begins s: the same look beforehand.
#[tactic(auto, using(laws::proofs::Library::begins_starts))]
fn is_begun(s: &[u8], text: &[u8]) -> bool
    ensures { result ≡ begins text.now s.now }
{
    match (text, s) {
        ([x, ..], [y, ..]) if x != y => false,
        _ => s.starts_with(text),
    }
}

// Whose name is s.
pub fn named(s: &[u8]) -> Option<usize>
    ensures { result ≡ named_by s.now }
{
    (0..NAME_COUNT).position(|k| is_named(k, s))
}

// Whose name, with what parts it from its value, begins s.
pub fn led(s: &[u8]) -> Option<usize>
    ensures { result ≡ led_by s.now }
{
    (0..NAME_COUNT).position(|k| is_begun(s, lead(k)))
}

// Which of setting k's values has the word s.
pub fn chosen(k: usize, s: &[u8]) -> Option<usize>
    ensures { result ≡ chosen_by k s.now }
{
    (0..word_count(k)).position(|v| word(k, v) == s)
}
