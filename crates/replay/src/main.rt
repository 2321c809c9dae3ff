// Reads a script from standard input and writes what its lines answer (docs/SCRIPTS.md): what that is stands in `script_run`.
#![tactic(auto)]

ghost use Rattle.std.specs.Prelude.{ℕ, ◌≤◌, List, ◌++◌, length, take, IfOk, OnErr};
ghost use Rattle.script.specs.declared.Held.{Held};
ghost use Rattle.script_run.specs.Calls.{Reached};

use script_run::{Progress, STORE, run_piece, start};
use std::io;
use std::io::{Read, Write};

// A piece of the script is run to its end, and its text is written each time that the area has no more room. Where the text cannot be
// written, the store is what calls on the script as far as it was taken leave.
fn take_piece(
    out: &mut impl Write,
    p: Progress,
    piece: &[u8],
    store: &mut [u8; STORE],
    area: &mut [u8],
) -> io::Result<Progress>
    requires { ((bytes : List ℕ) × Reached bytes p.held store.old p.kept) × (24576 ≤ length area.old) }
    ensures ok { IfOk result (λ r. (bytes : List ℕ) → Reached bytes p.held store.old p.kept
        → Reached (bytes ++ piece.now) r.held store.new r.kept) }
    ensures err { OnErr result ((bytes : List ℕ) → Reached bytes p.held store.old p.kept
        → (n : ℕ) × (held : Held) × (kept : ℕ) × Reached (bytes ++ take n piece.now) held store.new kept) }
{
    let mut q = p;
    let mut at = 0;
    while at < piece.len() {
        q = run_piece(q.held, q.kept, &piece[at..], store, area);
        out.write_all(&area[..q.len])?;
        at += q.next;
    }
    Ok(q)
}

// Reads once, and answers how many bytes came: none where the input has ended, or cannot be read.
fn read_some(input: &mut impl Read, area: &mut [u8]) -> usize
    ensures { result ≤ length area.old }
{
    match input.read(area) {
        Ok(n) => n,
        Err(_) => 0,
    }
}

// A proved loop has to end, and nothing says that the input does: so the turns are counted up to a number that no run
// reaches. What a piece writes is out before the next one is read, so that a person at a terminal sees it. "The last may lack
// it": 0Ah behind the input ends the last line, and behind a line that has ended it is an empty line.
fn main(rt: HostRuntime) -> io::Result<()> {
    let mut input = rt.stdin();
    let mut out = rt.stdout();
    let mut piece = [0u8; 65536];
    let mut store = [0u8; STORE];
    let mut area = [0u8; 65536];
    let mut p = Progress {
        held: start(),
        kept: 0,
        next: 0,
        len: 0,
    };
    for _ in 0..u64::MAX {
        let n = read_some(&mut input, &mut piece);
        if n == 0 {
            break;
        }
        p = take_piece(&mut out, p, &piece[..n], &mut store, &mut area)?;
    }
    take_piece(&mut out, p, b"\n", &mut store, &mut area)?;
    Ok(())
}
