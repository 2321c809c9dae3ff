// The one table of settings: the columns of numbers of specs/Table.antt, as code can read them.
#![tactic(auto)]

ghost use Rattle.std.specs.Prelude.{◌≡◌};
ghost use Rattle.settings.specs.Table.{mosts, starts};

// The greatest level.
pub const MOST_LEVEL: u8 = 100;

// The greatest size of a shift.
pub const MOST_SHIFT: u64 = 30;

// The numbers of the names: the levels stand first, then the choices, the flip words last of them; behind them SHIFTH and SHIFTV.
pub const LEVEL_COUNT: usize = 3;

pub const SETTING_COUNT: usize = 21;

pub const NAME_COUNT: usize = 23;

// REMOTE's place in the record.
pub const REMOTE: usize = 6;

// The flip's place in the record, behind those that have a name each; the first flip word's number is the same.
pub const FLIP: usize = 18;

// Each place's greatest value, in the order of the record. The two columns stand apart, for each is used whole: this one bounds a
// record, and the next is a new one.
const MOST: [u8; 19] = [
    MOST_LEVEL, // PHASE
    MOST_LEVEL, // CHROMA
    MOST_LEVEL, // VOLUME
    2, // MODE
    1, // NTSC
    1, // RGB RANGE
    1, // REMOTE
    1, // POWERSAVING
    1, // KEYINHIBIT
    1, // TALLYGREEN
    1, // TALLYRED
    1, // HVDELAY
    1, // BLUEONLY
    1, // MONOCHR
    1, // CAMERA FOCUS
    1, // LED
    1, // SCREENSAVER
    1, // SILENTMODE
    3, // the flip: none, H, V or HV
];

// Each place's start value.
const START: [u8; 19] = [
    50, // PHASE
    50, // CHROMA
    30, // VOLUME
    0, // MODE
    0, // NTSC
    0, // RGB RANGE
    1, // REMOTE
    0, // POWERSAVING
    0, // KEYINHIBIT
    0, // TALLYGREEN
    0, // TALLYRED
    0, // HVDELAY
    0, // BLUEONLY
    0, // MONOCHR
    0, // CAMERA FOCUS
    0, // LED
    0, // SCREENSAVER
    0, // SILENTMODE
    0, // the flip: none
];

// The greatest value at each place.
pub fn most_values() -> [u8; 19]
    ensures { result ≡ mosts }
{
    MOST
}

// The start value at each place.
pub fn start_values() -> [u8; 19]
    ensures { result ≡ starts }
{
    START
}
