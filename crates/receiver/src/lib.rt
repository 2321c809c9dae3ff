// SDCP off the wire: a receiver takes the pieces of a TCP link, cut anywhere, and gives whole packets, one a call (document 02, §1).
#![tactic(auto)]

ghost use Rattle.std.specs.Prelude.{◌≡◌, [], ◌++◌, ◌-◌, ◌<◌, ◌≤◌, length, get_or, take, drop};
ghost use Rattle.laws.specs.Bytes.{sent};
ghost use Rattle.receiver.specs.Stream.{agrees, can_begin, noise, sought, size_of, whole, counted};
ghost use Rattle.receiver.specs.Calls.{holding, given, handed, Receives};
ghost use Rattle.receiver.specs.Both.{both};

use octets::{lay, number2};
use sdcp_asks::FRONT;

// "a receiver for each TCP link": its record, which the caller owns and lends
#[repr(C)]
#[derive(Clone, Copy)]
pub struct Receiver {
    pub held: usize,
    pub store: [u8; 512],
}

// What a call did: the receiver after it, how many bytes of the piece it took, and the length of what it hands out, if it does.
#[derive(Clone, Copy)]
pub struct Received {
    pub after: Receiver,
    pub taken: usize,
    pub len: Option<usize>,
}

// What a call reads: "bytes held are read before the piece".
#[derive(Clone, Copy)]
struct Unread<'a> {
    held: &'a [u8],
    piece: &'a [u8],
}

// "the receiver's store is [0; 512], starting empty"
pub fn empty_receiver() -> Receiver
    ensures { result ≡ holding [] }
{
    Receiver {
        held: 0,
        store: [0; 512],
    }
}

// Whether two areas are the same as far as both go.
#[tactic(auto, using(crate::proofs::Front::agrees_starts))]
fn agree(a: &[u8], b: &[u8]) -> bool
    ensures { result ≡ agrees a.now b.now }
{
    a.starts_with(b) || b.starts_with(a)
}

// Whether a packet can begin at the front of an area: the first byte is asked first, since most noise ends there.
fn begins(s: &[u8]) -> bool
    requires { 0 < length s.now }
    ensures { result ≡ can_begin s.now }
{
    s[0] == 3 && agree(s, &FRONT)
}

// How many bytes are dropped until the next can begin a packet.
pub fn noise_in(s: &[u8]) -> usize
    ensures { result ≡ noise s.now }
{
    for j in 0..s.len() {
        if begins(&s[j..]) {
            return j;
        }
    }
    s.len()
}

// The length of what is handed out, by the data length.
#[tactic(auto, unfolding(crate::specs::Stream::size_of))]
fn size_of(n: usize) -> usize
    ensures { result ≡ size_of n }
{
    if 499 < n { 13 } else { 13 + n }
}

// How much stands whole at the front of an area, if a packet does.
pub fn whole_in(s: &[u8]) -> Option<usize>
    ensures { result ≡ counted (whole s.now) }
{
    Unread {
        held: s,
        piece: &[],
    }
    .whole()
}

impl<'a> Unread<'a> {
    fn len(self) -> usize
        ensures { result ≡ length (both self.entry) }
    {
        self.held.len() + self.piece.len()
    }

    // The byte at a place, 0 past the end.
    fn byte(self, i: usize) -> u8
        ensures { result ≡ get_or (both self.entry) i 0 }
    {
        if let Some(b) = self.held.get(i) {
            return *b;
        }
        self.piece.get(i - self.held.len()).copied().unwrap_or(0)
    }

    // The first n bytes.
    fn front(self, n: usize) -> Unread<'a>
        requires { n ≤ length (both self) }
        ensures { both result ≡ take n (both self.entry) }
    {
        let i = n.min(self.held.len());
        Unread {
            held: &self.held[..i],
            piece: &self.piece[..n - i],
        }
    }

    // All but the first n bytes.
    fn behind(self, n: usize) -> Unread<'a>
        requires { n ≤ length (both self) }
        ensures held { result.held.now ≡ drop n self.entry.held.now }
        ensures piece { result.piece.now ≡ drop (n - length self.entry.held.now) self.entry.piece.now }
        ensures both { both result ≡ drop n (both self.entry) }
    {
        let i = n.min(self.held.len());
        Unread {
            held: &self.held[i..],
            piece: &self.piece[n - i..],
        }
    }

    // Whether a packet can begin at the front: what of the six bytes is not held is asked of the piece.
    fn begins(self) -> bool
        ensures { result ≡ can_begin (both self.entry) }
    {
        let i = self.held.len().min(6);
        agree(self.held, &FRONT) && agree(self.piece, &FRONT[i..])
    }

    // How many bytes are dropped until the next can begin a packet.
    fn noise(self) -> usize
        ensures { result ≡ noise (both self.entry) }
    {
        for j in 0..self.held.len() {
            if self.behind(j).begins() {
                return j;
            }
        }
        self.held.len() + noise_in(self.piece)
    }

    // How much stands whole at the front, if a packet does.
    fn whole(self) -> Option<usize>
        ensures { result ≡ counted (whole (both self.entry)) }
    {
        let len = self.len();
        if len < 13 {
            return None;
        }
        let n = size_of(number2(self.byte(11), self.byte(12)) as usize);
        if len < n {
            return None;
        }
        Some(n)
    }

    // The bytes at the front of an area.
    fn lay(self, area: &mut [u8])
        requires { length (both self) ≤ length area.old }
        ensures { area.new ≡ sent (both self.entry) area.old }
    {
        lay(area, 0, self.held);
        lay(area, self.held.len(), self.piece);
    }

    // The bytes in a receiver, 0 behind them.
    fn kept(self) -> Receiver
        requires { length (both self) ≤ 512 }
        ensures { result ≡ holding (both self.entry) }
    {
        let mut store = [0u8; 512];
        self.lay(&mut store);
        Receiver {
            held: self.len(),
            store,
        }
    }

    // A call. Where nothing is whole behind the noise, all of it is held. A packet there is handed out, and what is held behind it is
    // held on: "a call takes no byte past what it hands out".
    fn take(self, packet: &mut [u8]) -> Received
        requires { (length self.held.now ≤ 512) × (512 ≤ length packet.old) }
        ensures { Receives (handed (whole (sought (both self.entry))) (noise (both self.entry)) self.entry.held.now self.entry.piece.now)
            packet.old result packet.new }
    {
        let left = self.behind(self.noise());
        let Some(n) = left.whole() else {
            return Received {
                after: left.kept(),
                taken: self.piece.len(),
                len: None,
            };
        };
        left.front(n).lay(packet);
        let rest = left.behind(n);
        let held_on = Unread { piece: &[], ..rest };
        Received {
            after: held_on.kept(),
            taken: self.piece.len() - rest.piece.len(),
            len: Some(n),
        }
    }
}

// One call: the packet, if there is one, is laid at the front of its area, and the bytes behind it keep what they held. A receiver
// "that claims to hold more is emptied first".
pub fn take_piece(r: Receiver, piece: &[u8], packet: &mut [u8; 512]) -> Received
    ensures { Receives (given r piece.now) packet.old result packet.new }
{
    let held = r.store.get(..r.held).unwrap_or(&[]);
    Unread { held, piece }.take(packet)
}
