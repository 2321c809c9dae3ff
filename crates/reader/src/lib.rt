// A plain receiver beside the first, to be followed by eye: two rules over a whole buffer, each passing the rest of the bytes to the
// other (document 02, §7).
#![tactic(auto)]

ghost use Rattle.std.specs.Prelude.{◌≡◌, true, ◌+◌, ◌<◌, ◌^◌, leb, length};
ghost use Rattle.receiver.specs.Stream.{can_begin};
ghost use Rattle.reader.specs.Plain.{noted, ends_at, stops_at, between, plain};

use receiver::{noise_in, whole_in};

// The list: how many entries, the start and length of each, where it ended, and 1 where it stopped there at a 65th, else 0. Numbers
// only, so that any bits that a host lends are a value.
#[repr(C)]
#[derive(Clone, Copy)]
pub struct Listing {
    pub count: usize,
    pub starts: [usize; 64],
    pub lengths: [usize; 64],
    pub end: usize,
    pub stopped: usize,
}

impl Listing {
    // "The list holds 64 entries"
    fn is_full(&self) -> bool
        ensures { result ≡ leb 64 self.now.count }
    {
        64 <= self.count
    }

    // An entry more.
    fn note(&mut self, at: usize, length: usize)
        requires { self.old.count < 64 }
        ensures { self.new ≡ noted self.old at length }
    {
        let n = self.count;
        self.starts[n] = at;
        self.lengths[n] = length;
        self.count = n + 1;
    }

    // A tail begins here, or the buffer ends.
    fn ends_at(&mut self, at: usize)
        ensures { self.new ≡ ends_at self.old at }
    {
        self.end = at;
        self.stopped = 0;
    }

    // "the plain reader stops at the start of a 65th and says where"
    fn stops_at(&mut self, at: usize)
        ensures { self.new ≡ stops_at self.old at }
    {
        self.end = at;
        self.stopped = 1;
    }
}

// Between packets: noise is passed over by a loop, since it may be long, and the rest passed to the other rule. The list is lent on, and
// not handed over: a call deeper then costs little stack.
#[cycle(between_packets_in_packet)]
fn between_packets(rest: &[u8], at: usize, list: &mut Listing)
    requires { at + length rest.now < 2 ^ 63 }
    ensures { list.new ≡ between rest.now at list.old }
{
    let j = noise_in(rest);
    if j < rest.len() {
        in_packet(&rest[j..], at + j, list);
    } else {
        list.ends_at(at + j);
    }
}

// In a packet: one that is not whole is the tail, and a whole one is listed if there is room, and the rest passed to the other rule.
#[cycle(between_packets_in_packet)]
fn in_packet(rest: &[u8], at: usize, list: &mut Listing)
    requires { (at + length rest.now < 2 ^ 63) × (0 < length rest.now) × (can_begin rest.now ≡ true) }
    ensures { list.new ≡ between rest.now at list.old }
{
    let Some(k) = whole_in(rest) else {
        list.ends_at(at);
        return;
    };
    if list.is_full() {
        list.stops_at(at);
        return;
    }
    list.note(at, k);
    between_packets(&rest[k..], at + k, list);
}

// The plain reader: a buffer begins between packets.
pub fn read_plain(buffer: &[u8]) -> Listing
    ensures { result ≡ plain buffer.now }
{
    let mut list = Listing {
        count: 0,
        starts: [0; 64],
        lengths: [0; 64],
        end: 0,
        stopped: 0,
    };
    between_packets(buffer, 0, &mut list);
    list
}
