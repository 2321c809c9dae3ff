// The box's records: plain numbers only, so that every bit pattern that a C host can hand in is a value, and validity judges it.
#![tactic(auto)]

ghost use Rattle.std.specs.Prelude.{◌≡◌};
ghost use Rattle.panels.specs.Records.{zero_panel};

use terms::{GroupId, UnitId};

// The families' bytes.
pub const FAMILY_W: u8 = b'W';

pub const FAMILY_K: u8 = b'K';

// The connectors' codes, the presets' codes, and the types of INPT.
pub const CONNECTORS: [u8; 10] = [0, 2, 4, 5, 6, 7, 8, 9, 10, 11];

pub const PRESETS: [u8; 3] = [0, 2, 3];

pub const KINDS: [u8; 4] = [1, 3, 4, 5];

// The greatest volume of a K panel.
pub const MOST_VOLUME: u8 = 100;

// The inputs of a W panel: the code of the connector in use, the code of the preset white balance, and which of the ten
// connectors are ON, in the order of the table of their codes.
#[repr(C)]
#[derive(Clone, Copy)]
pub struct Inputs {
    pub used: u8,
    pub preset: u8,
    pub on: [u8; 10],
}

// White balance: R, G, B.
#[repr(C)]
#[derive(Clone, Copy)]
pub struct Balance {
    pub gains: [u16; 3],
    pub biases: [i16; 3],
}

// The settings of a W panel: those of the table and the flip, SHIFTH and SHIFTV, the inputs and the white balance.
#[repr(C)]
#[derive(Clone, Copy)]
pub struct WRecord {
    pub settings: [u8; 19],
    pub shifts: [i8; 2],
    pub spare: u8,
    pub inputs: Inputs,
    pub balance: Balance,
}

// The settings of a K panel: power, audio mute, picture mute, volume, scene, and the input's type and port.
#[repr(C)]
#[derive(Clone, Copy)]
pub struct KRecord {
    pub power: u8,
    pub amut: u8,
    pub pmut: u8,
    pub volume: u8,
    pub scene: u8,
    pub kind: u8,
    pub port: u16,
}

// A panel: its family (57h W, 4Bh K), its IDs, and the settings of both families side by side.
#[repr(C)]
#[derive(Clone, Copy)]
pub struct Panel {
    pub family: u8,
    pub group: GroupId,
    pub unit: UnitId,
    pub spare: u8,
    pub w: WRecord,
    pub k: KRecord,
}

// "A box holds 1 to 8 panels, numbered from 1 in the order given."
#[repr(C)]
#[derive(Clone, Copy)]
pub struct DisplayBox {
    pub count: usize,
    pub panels: [Panel; 8],
}

// A place that holds no panel: all zeros. They are written out, for of an array a derived default says no more than that each of its
// elements is one.
pub fn zero_panel() -> Panel
    ensures { result ≡ zero_panel }
{
    Panel {
        family: 0,
        group: GroupId(0),
        unit: UnitId(0),
        spare: 0,
        w: WRecord {
            settings: [0; 19],
            shifts: [0; 2],
            spare: 0,
            inputs: Inputs {
                used: 0,
                preset: 0,
                on: [0; 10],
            },
            balance: Balance {
                gains: [0; 3],
                biases: [0; 3],
            },
        },
        k: KRecord {
            power: 0,
            amut: 0,
            pmut: 0,
            volume: 0,
            scene: 0,
            kind: 0,
            port: 0,
        },
    }
}
