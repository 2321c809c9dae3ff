// The line of an advert's fields (docs/SCRIPTS.md, `advert`).
#![tactic(auto)]

ghost use Rattle.script_text.specs.Puts.{Puts};
ghost use Rattle.script_fields.specs.Fields.{head_text, addresses_text, tail_text, advert_text};

use script_forms::put_numbers;
use script_text::{put_bytes_text, put_number_text};
use sdap::Advert;

// An advert's fields before its addresses.
fn put_head(out: &mut [u8], at: usize, a: &Advert) -> usize
    ensures { Puts (head_text a.now) out.old at out.new result }
{
    let b = put_number_text(out, at, b"answer 0 category ", a.category as u32);
    let c = put_bytes_text(out, b, b" product ", &a.product);
    let d = put_numbers(out, c, b" serial # power #", &[a.serial, a.power as u32]);
    put_bytes_text(out, d, b" location ", &a.location)
}

// Its addresses, each as one number.
fn put_addresses(out: &mut [u8], at: usize, a: &Advert) -> usize
    ensures { Puts (addresses_text a.now) out.old at out.new result }
{
    let [first, second, third, fourth] = a.accepted;
    let numbers = [a.connected, first, second, third, fourth];
    put_numbers(out, at, b" ip # accepted # # # #", &numbers)
}

// Its fields behind them.
fn put_tail(out: &mut [u8], at: usize, a: &Advert) -> usize
    ensures { Puts (tail_text a.now) out.old at out.new result }
{
    let ids = [a.group.0 as u32, a.unit.0 as u32];
    let b = put_number_text(out, at, b" error ", a.error as u32);
    let c = put_bytes_text(out, b, b" region ", &a.region);
    let d = put_bytes_text(out, c, b" name ", &a.name);
    put_numbers(out, d, b" group # unit #", &ids)
}

// The line of an advert's fields.
pub fn put_advert(out: &mut [u8], at: usize, a: &Advert) -> usize
    ensures { Puts (advert_text a.now) out.old at out.new result }
{
    let b = put_head(out, at, a);
    let c = put_addresses(out, b, a);
    put_tail(out, c, a)
}
