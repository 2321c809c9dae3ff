// The names of the settings and the words of their values as texts (document 01, "SDCP and VMC").
#![tactic(auto)]

ghost use Rattle.std.specs.Prelude.{◌≡◌, length};
ghost use Rattle.setting_texts.specs.Names.{name_of, lead_of, words_of, word_of};

// Each name with what parts it from its value. A `match` is a table in the program itself: an array would be built anew for each search.
pub fn lead(k: usize) -> &'static [u8]
    ensures { result.now ≡ lead_of k }
{
    match k {
        0 => b"PHASE ",
        1 => b"CHROMA ",
        2 => b"VOLUME ",
        3 => b"MODE",
        4 => b"NTSC",
        5 => b"RGB RANGE ",
        6 => b"REMOTE ",
        7 => b"POWERSAVING ",
        8 => b"KEYINHIBIT ",
        9 => b"TALLYGREEN ",
        10 => b"TALLYRED ",
        11 => b"HVDELAY ",
        12 => b"BLUEONLY ",
        13 => b"MONOCHR ",
        14 => b"CAMERA FOCUS ",
        15 => b"LED ",
        16 => b"SCREENSAVER ",
        17 => b"SILENTMODE ",
        18 => b"FLIPH ",
        19 => b"FLIPV ",
        20 => b"FLIPHV ",
        21 => b"SHIFTH ",
        22 => b"SHIFTV ",
        _ => b"",
    }
}

// The same without what parts it from its value.
pub fn name(k: usize) -> &'static [u8]
    ensures { result.now ≡ name_of k }
{
    match lead(k) {
        [name @ .., b' '] => name,
        name => name,
    }
}

// How many words setting k's values have.
pub fn word_count(k: usize) -> usize
    ensures { result ≡ length (words_of k) }
{
    match k {
        3 => 3, // MODE
        4..=20 => 2,
        _ => 0, // the levels and the shifts, whose values are numbers
    }
}

// The word of setting k's value v; none where there is no such value.
pub fn word(k: usize, v: usize) -> &'static [u8]
    ensures { result.now ≡ word_of k v }
{
    match (k, v) {
        (3, 0) => b"0", // MODE
        (3, 1) => b"1",
        (3, 2) => b"2",
        (4, 0) => b"0", // NTSC
        (4, 1) => b"75",
        (5, 0) => b"FULL", // RGB RANGE
        (5, 1) => b"LIMITED",
        (6..=20, 0) => b"OFF",
        (6..=20, 1) => b"ON",
        _ => b"",
    }
}
