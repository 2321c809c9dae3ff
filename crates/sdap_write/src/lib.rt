// The advert writer (document 01, "SDAP advert, 122 bytes").
#![tactic(auto)]

ghost use Rattle.std.specs.Prelude.{◌≡◌, ◌≤◌, length};
ghost use Rattle.laws.specs.Bytes.{over, sent};
ghost use Rattle.sdap.specs.Layout.{lent_of, bytes_of, head_of, addresses_of, tail_of};
ghost use Rattle.sdap.specs.Rules.{Sized, Written};

use octets::lay;
use sdap::Fields;
use terms::Answer;

// The bytes 0 to 49.
fn put_head(f: &Fields, out: &mut [u8])
    requires in_bounds { 122 ≤ length out.old }
    requires sized { Sized (lent_of f.now) }
    ensures { out.new ≡ over out.old 0 (head_of (lent_of f.now)) }
{
    lay(out, 0, &[b'D', b'A', 4, f.category, b'S', b'O', b'N', b'Y']);
    lay(out, 8, f.product);
    lay(out, 20, &f.serial.to_be_bytes());
    lay(out, 24, &f.power.to_be_bytes());
    lay(out, 26, f.location);
}

// The bytes 50 to 69.
fn put_addresses(f: &Fields, out: &mut [u8])
    requires { 122 ≤ length out.old }
    ensures { out.new ≡ over out.old 50 (addresses_of (lent_of f.now)) }
{
    lay(out, 50, &f.connected.to_be_bytes());
    lay(out, 54, &f.accepted[0].to_be_bytes());
    lay(out, 58, &f.accepted[1].to_be_bytes());
    lay(out, 62, &f.accepted[2].to_be_bytes());
    lay(out, 66, &f.accepted[3].to_be_bytes());
}

// The bytes 70 to 121.
fn put_tail(f: &Fields, out: &mut [u8])
    requires in_bounds { 122 ≤ length out.old }
    requires sized { Sized (lent_of f.now) }
    ensures { out.new ≡ over out.old 70 (tail_of (lent_of f.now)) }
{
    lay(out, 70, &f.error.to_be_bytes());
    lay(out, 72, f.region);
    lay(out, 96, f.name);
    lay(out, 120, &[f.group.0, f.unit.0]);
}

// The 122 bytes at the front of an area.
fn put_advert(f: &Fields, out: &mut [u8])
    requires in_bounds { 122 ≤ length out.old }
    requires sized { Sized (lent_of f.now) }
    ensures { out.new ≡ sent (bytes_of (lent_of f.now)) out.old }
{
    put_head(f, out);
    put_addresses(f, out);
    put_tail(f, out);
}

// The advert writer.
pub fn write_advert(f: &Fields, out: &mut [u8]) -> Answer
    ensures { Written (lent_of f.now) out.old result out.new }
{
    let answer = f.write_answer(out.len());
    if answer == Answer::Done {
        put_advert(f, out);
    }
    answer
}
