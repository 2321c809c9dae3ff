// KJW: what a control with the letters IRCC orders (document 02, §6).
#![tactic(auto)]

ghost use Rattle.std.specs.Prelude.{◌≡◌};
ghost use Rattle.kjw_codes.specs.Presses.{pressed, code_order};

use decimals::read_digits;
use kjw_sets::Order;
use remote::{Button, button_of};

// What a button orders.
fn press(b: Button) -> Order
    ensures { result ≡ pressed b }
{
    match b {
        Button::Idle => Order::Pass,
        Button::Louder => Order::Louder,
        Button::Softer => Order::Softer,
        Button::Mute => Order::ToggleAudioMute,
        Button::Picture => Order::TogglePictureMute,
        Button::Power => Order::TogglePower,
        Button::Hdmi(port) => Order::SetInput(1, port),
    }
}

// A control with the letters IRCC: what the code that its sixteen digits write orders.
#[tactic(auto, unfolding(crate::specs::Presses::code_order, crate::specs::Presses::is_code, decimals::specs::Decimals::read_digits))]
pub fn code_order(p: &[u8]) -> Option<Order>
    ensures { result ≡ code_order p.now }
{
    if p.len() != 16 {
        return None;
    }
    button_of(read_digits(p)?).map(press)
}
