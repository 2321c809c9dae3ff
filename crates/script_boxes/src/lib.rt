// The configuration that a `box` line writes (docs/SCRIPTS.md, "Orders").
#![tactic(auto)]

ghost use Rattle.std.specs.Prelude.{◌≡◌, ◌*◌, ◌≤◌, length};
ghost use Rattle.laws.specs.Bytes.{Sent};
ghost use Rattle.script_boxes.specs.Boxes.{panels_in, configuration, configuration_of};

use script_words::{letter_at, number_at, spaces_in};

// How many panels a `box` line writes.
pub fn panels_in(line: &[u8]) -> usize
    ensures { result ≡ panels_in line.now }
{
    spaces_in(line) / 3
}

// Lays the configuration of n panels over the front of an area.
fn put_panels(line: &[u8], n: usize, area: &mut [u8]) -> usize
    requires { (n ≤ 16) × (n * 3 ≤ length area.old) }
    ensures { Sent (configuration n 1 line.now) result area.old area.new }
{
    for i in 0..n {
        let k = i * 3;
        area[k] = letter_at(line, k + 1);
        area[k + 1] = number_at(line, k + 2, 255) as u8;
        area[k + 2] = number_at(line, k + 3, 255) as u8;
    }
    n * 3
}

// Lays the configuration that a `box` line writes over the front of an area; none where more than sixteen panels are written.
pub fn configuration_in(line: &[u8], area: &mut [u8; 48]) -> usize
    ensures { Sent (configuration_of line.now) result area.old area.new }
{
    let n = panels_in(line);
    if 16 < n {
        return 0;
    }
    put_panels(line, n, area)
}
