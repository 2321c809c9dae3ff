// A script that arrives in pieces: its lines are answered one after the other, each with what the last one left of box and receivers (docs/SCRIPTS.md).
#![tactic(auto)]

ghost use Rattle.std.specs.Prelude.{◌≡◌, ◌≤◌, length, take};
ghost use Rattle.panels.specs.Records.{no_box};
ghost use Rattle.script.specs.Answers.{at_start};
ghost use Rattle.script_run.specs.Lines.{RunsLine};
ghost use Rattle.script_run.specs.Pieces.{Runs};

use configure::configure;
use panels::DisplayBox;
use receiver::empty_receiver;
use script::{Held, answer_line};
use script_pieces::take_part;

// Of a line so many bytes are kept: enough to see that it is too long.
pub const STORE: usize = 4097;

// Room for the longest text of a line.
const ROOM: usize = 24576;

// How far a script is: what it holds, how much of the line that has not ended stands in the store, where the piece goes on, and how much
// of the area is text.
#[derive(Clone, Copy)]
pub struct Progress {
    pub held: Held,
    pub kept: usize,
    pub next: usize,
    pub len: usize,
}

// "A script starts with a box of no panels": an empty configuration gives that box.
fn no_panels() -> DisplayBox
    ensures { result ≡ no_box }
{
    configure(b"").made
}

// "and with empty receivers"
pub fn start() -> Held
    ensures { result ≡ at_start }
{
    Held {
        made: no_panels(),
        receivers: [empty_receiver(); 8],
    }
}

// How much of the store is the line that has not ended.
fn line_length(store: &[u8], kept: usize) -> usize
    ensures { result ≡ length (take kept store.now) }
{
    kept.min(store.len())
}

// One line, or what the piece has of it: where it ended it is answered.
fn run_line(p: Progress, piece: &[u8], store: &mut [u8], area: &mut [u8]) -> Progress
    requires { (p.kept ≤ length store.old) × (p.len ≤ length area.old) }
    ensures { RunsLine p piece.now store.old area.old result store.new area.new }
{
    let part = take_part(store, p.kept, piece, p.next);
    if !part.ended {
        return Progress {
            kept: part.kept,
            next: part.next,
            ..p
        };
    }
    let a = answer_line(p.held, &store[..part.kept], &mut area[p.len..]);
    Progress {
        held: a.after,
        kept: 0,
        next: part.next,
        len: p.len + a.len,
    }
}

// The lines of a piece one after the other, as far as the area has room for their texts; what is left of the piece is for the next call.
pub fn run_piece(
    held: Held,
    kept: usize,
    piece: &[u8],
    store: &mut [u8; STORE],
    area: &mut [u8],
) -> Progress
    ensures { Runs held store.old kept piece.now area.old result store.new area.new }
{
    let mut p = Progress {
        held,
        kept: line_length(store, kept),
        next: 0,
        len: 0,
    };
    while p.next < piece.len() {
        if area.len() - p.len < ROOM {
            return p;
        }
        p = run_line(p, piece, store, area);
    }
    p
}
