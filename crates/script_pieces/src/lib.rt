// Lines of a script that arrive in pieces: what of a piece belongs to the line, and where the next one starts (docs/SCRIPTS.md).
#![tactic(auto)]

ghost use Rattle.std.specs.Prelude.{◌≡◌};
ghost use Rattle.script_pieces.specs.Parts.{Takes};

use script_text::put;
use script_words::length_before;

// What was taken: how much of the line stands in the store, where the next line starts, and whether this one is whole.
#[derive(Clone, Copy)]
pub struct Part {
    pub kept: usize,
    pub next: usize,
    pub ended: bool,
}

// Takes what belongs to the line from a place of a piece on into the store, behind what is kept there.
pub fn take_part(store: &mut [u8], kept: usize, piece: &[u8], from: usize) -> Part
    ensures { Takes piece.now from kept store.old result store.new }
{
    if piece.len() <= from {
        return Part {
            kept,
            next: from,
            ended: false,
        };
    }
    let end = from + length_before(b'\n', &piece[from..]);
    let kept = put(store, kept, &piece[from..end]);
    if end == piece.len() {
        return Part {
            kept,
            next: end,
            ended: false,
        };
    }
    Part {
        kept,
        next: end + 1,
        ended: true,
    }
}
