// The advert writer on the words of a `write` line (docs/SCRIPTS.md).
#![tactic(auto)]

ghost use Rattle.std.specs.Prelude.{◌≡◌};
ghost use Rattle.script_words.specs.Words.{number_at};
ghost use Rattle.sdap.specs.Rules.{Written};
ghost use Rattle.script_write.specs.Wanted.{wanted};

use script_words::{ANY, bytes_at, number_at};
use sdap::Fields;
use sdap_write::write_advert;
use terms::{Answer, GroupId, UnitId};

// A word's number as a byte. Not one function with `short_in`: each cast needs its own bound.
fn byte_in(line: &[u8], k: usize) -> u8
    ensures { result ≡ number_at 255 k line.now }
{
    number_at(line, k, 255) as u8
}

// A word's number as two bytes.
fn short_in(line: &[u8], k: usize) -> u16
    ensures { result ≡ number_at 65535 k line.now }
{
    number_at(line, k, 65535) as u16
}

// The advert writer on the fields of a line.
pub fn write_fields(line: &[u8], area: &mut [u8]) -> Answer
    ensures { Written (wanted line.now) area.old result area.new }
{
    let mut product = [0u8; 1024];
    let mut location = [0u8; 1024];
    let mut region = [0u8; 1024];
    let mut name = [0u8; 1024];
    let p = bytes_at(line, 3, &mut product);
    let l = bytes_at(line, 6, &mut location);
    let r = bytes_at(line, 13, &mut region);
    let n = bytes_at(line, 14, &mut name);
    let fields = Fields {
        category: byte_in(line, 2),
        product: &product[..p],
        serial: number_at(line, 4, ANY),
        power: short_in(line, 5),
        location: &location[..l],
        connected: number_at(line, 7, ANY),
        accepted: [
            number_at(line, 8, ANY),
            number_at(line, 9, ANY),
            number_at(line, 10, ANY),
            number_at(line, 11, ANY),
        ],
        error: short_in(line, 12),
        region: &region[..r],
        name: &name[..n],
        group: GroupId(byte_in(line, 15)),
        unit: UnitId(byte_in(line, 16)),
    };
    write_advert(&fields, area)
}
