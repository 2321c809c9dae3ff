// The calls for the C host: numbers and byte areas in, numbers out. include/display_box.h declares them.
#![tactic(auto)]

ghost use Rattle.std.specs.Prelude.{◌≡◌};
ghost use Rattle.terms.specs.Answers.{number_of};
ghost use Rattle.terms.specs.declared.Answer.TheVariants.{Done};
ghost use Rattle.sums.specs.Sums.{sums_to_zero};
ghost use Rattle.sdap.specs.Rules.{read_answer};
ghost use Rattle.configure.specs.Configure.{configured};
ghost use Rattle.receiver.specs.Calls.{given, Receives};
ghost use Rattle.reader.specs.Plain.{plain};
ghost use Rattle.host_box.specs.Called.{called, panel_behind};
ghost use Rattle.host.specs.Calls.{WrittenForC, fields_from_c, outcome_for_c, received_of};

use host_box::{make_box, panel_behind, take_message};
use panels::{DisplayBox, Panel};
use reader::{Listing, read_plain};
use receiver::{Receiver, take_piece};
use sdap::Fields;
use sdap_read::read_answer;
use sdap_write::write_advert;
use sums::sums_to_zero;
use terms::{GroupId, UnitId};

// What the host is told of a message: the answer's number and its place in the message, and the reply's length.
#[repr(C)]
#[derive(Clone, Copy)]
pub struct Outcome {
    pub answer: u8,
    pub place: u16,
    pub len: usize,
}

// A new box into the host's memory: three bytes a panel. The answer's number.
#[unsafe(no_mangle)]
pub extern "C" fn box_configure(b: &mut DisplayBox, configuration: &[u8]) -> u8
    ensures { (b.new ≡ (configured configuration.now).made)
        × (result ≡ number_of (configured configuration.now).answer) }
{
    let m = make_box(configuration);
    *b = m.made;
    m.answer
}

// A message to the host's box, by the number of its way in. A refusal leaves the box, so nothing is stored then.
#[unsafe(no_mangle)]
pub extern "C" fn box_take(
    b: &mut DisplayBox,
    way: u8,
    link: usize,
    m: &[u8],
    area: &mut [u8],
) -> Outcome
    ensures { (b.new ≡ (called b.old way link m.now area.old).box)
        × ((result ≡ outcome_for_c (called b.old way link m.now area.old))
        × (area.new ≡ (called b.old way link m.now area.old).area)) }
{
    let t = take_message(*b, way, link, m, area);
    if t.done {
        *b = t.after;
    }
    Outcome {
        answer: t.answer,
        place: t.place,
        len: t.len,
    }
}

// The panel behind a link of the host's box into the host's memory, or all zeros.
#[unsafe(no_mangle)]
pub extern "C" fn box_panel_at(b: &DisplayBox, link: usize, panel: &mut Panel)
    ensures { panel.new ≡ panel_behind b.now link }
{
    *panel = panel_behind(*b, link);
}

// What the host is told of a piece: how many of its bytes were taken, and the length of what is handed out, 0 for nothing. Numbers, for the
// C host reads them.
#[repr(C)]
#[derive(Clone, Copy)]
pub struct Handed {
    pub taken: usize,
    pub len: usize,
}

// A piece to the host's receiver. "The receiver's record is lent by the caller and updated there."
#[unsafe(no_mangle)]
pub extern "C" fn box_receive(r: &mut Receiver, piece: &[u8], packet: &mut [u8; 512]) -> Handed
    ensures { Receives (given r.old piece.now) packet.old (received_of r.new result) packet.new }
{
    let t = take_piece(*r, piece, packet);
    *r = t.after;
    Handed {
        taken: t.taken,
        len: t.len.unwrap_or(0),
    }
}

// The plain reader's list of a buffer into the host's memory. It refuses nothing: "that stop is reported beside the answer 0".
#[unsafe(no_mangle)]
pub extern "C" fn box_plain(buffer: &[u8], listing: &mut Listing) -> u8
    ensures { (listing.new ≡ plain buffer.now) × (result ≡ number_of Done) }
{
    *listing = read_plain(buffer);
    0
}

// The checksum test.
#[unsafe(no_mangle)]
pub extern "C" fn box_checksum_ok(area: &[u8]) -> bool
    ensures { result ≡ sums_to_zero area.now }
{
    sums_to_zero(area)
}

// The advert reader: "To C the reader gives the answer number alone."
#[unsafe(no_mangle)]
pub extern "C" fn box_advert_read(bytes: &[u8]) -> u8
    ensures { result ≡ number_of (read_answer bytes.now) }
{
    read_answer(bytes).number()
}

// The advert writer: "it returns the number alone".
#[unsafe(no_mangle)]
pub extern "C" fn box_advert_write(
    category: u8,
    product: &[u8],
    serial: u32,
    power: u16,
    location: &[u8],
    connected: u32,
    accepted1: u32,
    accepted2: u32,
    accepted3: u32,
    accepted4: u32,
    error: u16,
    region: &[u8],
    name: &[u8],
    group: u8,
    unit: u8,
    out: &mut [u8],
) -> u8
    ensures { WrittenForC (fields_from_c category product.now serial power location.now connected accepted1 accepted2 accepted3 accepted4 error region.now name.now group unit) out.old result out.new }
{
    let fields = Fields {
        category,
        product,
        serial,
        power,
        location,
        connected,
        accepted: [accepted1, accepted2, accepted3, accepted4],
        error,
        region,
        name,
        group: GroupId(group),
        unit: UnitId(unit),
    };
    write_advert(&fields, out).number()
}
