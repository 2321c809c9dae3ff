// The buttons of the KJW remote control: what each code of document 003's table asks (document 02, §6).
#![tactic(auto)]

ghost use Rattle.std.specs.Prelude.{◌≡◌};
ghost use Rattle.remote.specs.Codes.{button_of};

// What a listed code asks: no change, or one; an HDMI button has its port.
#[derive(Clone, Copy)]
pub enum Button {
    Idle,
    Louder,
    Softer,
    Mute,
    Picture,
    Power,
    Hdmi(u16),
}

// The button that a code stands for; a number that the table does not list has none.
#[tactic(auto, unfolding(crate::specs::Codes::button_of, crate::specs::Codes::asked_in))]
pub fn button_of(code: u64) -> Option<Button>
    ensures { result ≡ button_of code }
{
    match code {
        // Display, Home, Options, Return, Up, Down, Right, Left, Confirm, Red, Green, Yellow, Blue, Num1 to Num9, Num0
        5..=27 => Some(Button::Idle),
        // Volume Up, Volume Down, Mute
        30 => Some(Button::Louder),
        31 => Some(Button::Softer),
        32 => Some(Button::Mute),
        // Channel Up, Channel Down, Subtitle; DOT
        33..=35 | 38 => Some(Button::Idle),
        // Picture Off
        50 => Some(Button::Picture),
        // Wide, Jump; Sync Menu, Forward, Play, Rewind, Prev, Stop, Next; Pause; Flash Plus, Flash Minus
        61..=62 | 76..=82 | 84 | 86..=87 => Some(Button::Idle),
        // TV Power
        98 => Some(Button::Power),
        // Audio; Input; Sleep, Sleep Timer; Video 2; Picture Mode; Demo Surround
        99 | 101 | 104..=105 | 108 | 110 | 121 => Some(Button::Idle),
        // HDMI 1 to 4
        124 => Some(Button::Hdmi(1)),
        125 => Some(Button::Hdmi(2)),
        126 => Some(Button::Hdmi(3)),
        127 => Some(Button::Hdmi(4)),
        // Action Menu, Help
        129..=130 => Some(Button::Idle),
        _ => None,
    }
}
