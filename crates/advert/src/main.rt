// Reads all of standard input and prints the advert's product, serial, group and unit, or the one line `refused N`.
#![tactic(auto)]

ghost use Rattle.std.specs.Prelude.{◌≤◌, length};

use sdap::{Advert, text_length};
use sdap_read::read_advert;
use std::io;
use std::io::{Read, Write};
use terms::Answer;

// Reads once, and answers how many bytes came: none where the input has ended, or cannot be read. The program replay has a copy of its
// own: a library for one line would be no plainer.
fn read_some(input: &mut impl Read, area: &mut [u8]) -> usize
    ensures { result ≤ length area.old }
{
    input.read(area).unwrap_or(0)
}

// As much of an advert as the input begins with: an advert has 122 bytes, so the 123rd is all that need be known of a longer input.
fn read_front(input: &mut impl Read, front: &mut [u8; 123]) -> usize
    ensures { result ≤ 123 }
{
    let mut n = 0;
    for _ in 0..123 {
        let came = read_some(input, &mut front[n..]);
        if came == 0 {
            break;
        }
        n += came;
    }
    n
}

// Reads once, drops what came, and answers whether there may be more.
fn drop_some(input: &mut impl Read) -> bool {
    let mut rest = [0u8; 4096];
    read_some(input, &mut rest) > 0
}

// Drops what is left of the input. A proved loop has to end, and nothing says that the input does: so the turns are
// counted up to a number that no run reaches.
fn drop_all(input: &mut impl Read) {
    for _ in 0..u64::MAX {
        if !drop_some(input) {
            break;
        }
    }
}

fn print_line(out: &mut impl Write, word: &[u8], n: u64) -> io::Result<()> {
    out.write_all(word)?;
    writeln!(out, "{n}")
}

fn print_product(out: &mut impl Write, product: [u8; 12]) -> io::Result<()> {
    out.write_all(b"product ")?;
    let n = text_length(&product);
    out.write_all(&product[..n])?;
    out.write_all(b"\n")
}

fn print_advert(out: &mut impl Write, a: Advert) -> io::Result<()> {
    print_product(out, a.product)?;
    print_line(out, b"serial ", a.serial.into())?;
    print_line(out, b"group ", a.group.0.into())?;
    print_line(out, b"unit ", a.unit.0.into())
}

fn main(rt: HostRuntime) -> io::Result<()> {
    let mut input = rt.stdin();
    let mut out = rt.stdout();
    let mut front = [0u8; 123];
    let n = read_front(&mut input, &mut front);
    drop_all(&mut input);
    let read = read_advert(&front[..n]);
    if read.answer != Answer::Done {
        return print_line(&mut out, b"refused ", read.answer.number().into());
    }
    print_advert(&mut out, read.fields)
}
