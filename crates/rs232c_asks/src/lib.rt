// RS-232C: what a frame asks, whatever the panel (document 01, "RS-232C (002, 004)"; document 02, §8).
#![tactic(auto)]

ghost use Rattle.std.specs.Prelude.{◌≡◌, ◌≤◌, length};
ghost use Rattle.rs232c_asks.specs.Asks.{is_foreign, envelope_of, command_of, order_of, heard_of};
ghost use Rattle.rs232c_asks.specs.Asks.{config_command, select_command, levels_command, sense_command, remote_command};
ghost use Rattle.rs232c_asks.specs.Commands.{connector_good, preset_good, config_good, select_good};

use octets::ones_of;
use panels::{CONNECTORS, PRESETS};
use sums::sums_to_zero;
use terms::{Answer, Part};

// What 61h asks for, by its byte.
#[derive(Clone, Copy)]
pub enum Which {
    Gains = 1,
    Biases = 2,
}

// What a command block orders.
#[derive(Clone, Copy)]
pub enum Order {
    // 21h: the marks, and the codes of connector and preset
    Config(u8, u8),
    // 22h: the connector and the act
    Select(u8),
    // 40h: the mask; its values stand behind it in the frame
    Levels(u8),
    // 61h
    Sense(Which),
    // 6Eh
    Remote,
}

// What a frame that is ours asks: the source, to which the reply goes, and the order, or the answer where there is none.
#[derive(Clone, Copy)]
pub struct Asked {
    pub source: u8,
    pub order: Result<Order, Answer>,
}

// First byte, destination and source are not as they are to be.
#[tactic(auto, unfolding(crate::specs::Asks::is_foreign))]
fn is_foreign(m: &[u8]) -> bool
    ensures { result ≡ is_foreign m.now }
{
    !matches!(m, [2, _, 1, 0x41..=0x7F, ..])
}

// Byte count and checksum, in this order. A frame whose byte count is right has at most 258 bytes.
#[tactic(auto, unfolding(crate::specs::Asks::envelope_of))]
fn envelope_of(m: &[u8]) -> Result<(), Part>
    requires { 6 ≤ length m.now }
    ensures { result ≡ envelope_of m.now }
{
    if m[1] as usize + 3 != m.len() {
        return Err(Part::Count);
    }
    if !sums_to_zero(&m[1..]) {
        return Err(Part::Checksum((m.len() - 1) as u16));
    }
    Ok(())
}

// 21h: the connector's code is listed, where it is marked.
#[tactic(auto, unfolding(crate::specs::Commands::connector_good))]
fn connector_good(marks: u8, byte: u8) -> bool
    ensures { result ≡ connector_good marks byte }
{
    marks % 2 != 1 || CONNECTORS.contains(&(byte % 16))
}

// 21h: the preset's code is listed, where it is marked.
#[tactic(auto, unfolding(crate::specs::Commands::preset_good))]
fn preset_good(marks: u8, byte: u8) -> bool
    ensures { result ≡ preset_good marks byte }
{
    marks / 2 % 2 != 1 || PRESETS.contains(&(byte / 16 % 8))
}

// 21h: both parts.
#[tactic(auto, unfolding(crate::specs::Commands::config_good))]
fn config_good(marks: u8, byte: u8) -> bool
    ensures { result ≡ config_good marks byte }
{
    connector_good(marks, byte) && preset_good(marks, byte)
}

// 22h: an act, with a listed connector where the act looks at it.
#[tactic(auto, unfolding(crate::specs::Commands::select_good))]
fn select_good(byte: u8) -> bool
    ensures { result ≡ select_good byte }
{
    match byte / 16 % 4 {
        3 => true,
        0 => false,
        _ => CONNECTORS.contains(&(byte % 16)),
    }
}

// The command, by its code and its data bytes.
#[tactic(auto, unfolding(crate::specs::Asks::command_of))]
fn command_of(code: u8, bytes: &[u8]) -> Option<Order>
    ensures { result ≡ command_of code bytes.now }
{
    match code {
        0x21 => config_command(bytes),
        0x22 => select_command(bytes),
        0x40 => levels_command(bytes),
        0x61 => sense_command(bytes),
        0x6E => remote_command(bytes),
        _ => None,
    }
}

#[tactic(auto, unfolding(crate::specs::Asks::config_command))]
fn config_command(bytes: &[u8]) -> Option<Order>
    ensures { result ≡ config_command bytes.now }
{
    match *bytes {
        [marks, byte] if config_good(marks, byte) => Some(Order::Config(marks, byte)),
        _ => None,
    }
}

#[tactic(auto, unfolding(crate::specs::Asks::select_command))]
fn select_command(bytes: &[u8]) -> Option<Order>
    ensures { result ≡ select_command bytes.now }
{
    match *bytes {
        [byte] if select_good(byte) => Some(Order::Select(byte)),
        _ => None,
    }
}

// The count of ones in the mask fixes the number of data bytes, before anything is applied.
#[tactic(auto, unfolding(crate::specs::Asks::levels_command))]
fn levels_command(bytes: &[u8]) -> Option<Order>
    ensures { result ≡ levels_command bytes.now }
{
    let (mask, values) = bytes.split_first()?;
    if values.len() != 2 * ones_of(*mask % 64) {
        return None;
    }
    Some(Order::Levels(*mask))
}

#[tactic(auto, unfolding(crate::specs::Asks::sense_command))]
fn sense_command(bytes: &[u8]) -> Option<Order>
    ensures { result ≡ sense_command bytes.now }
{
    match *bytes {
        [1] => Some(Order::Sense(Which::Gains)),
        [2] => Some(Order::Sense(Which::Biases)),
        _ => None,
    }
}

#[tactic(auto, unfolding(crate::specs::Asks::remote_command))]
fn remote_command(bytes: &[u8]) -> Option<Order>
    ensures { result ≡ remote_command bytes.now }
{
    if bytes.is_empty() {
        Some(Order::Remote)
    } else {
        None
    }
}

// What a frame that is ours orders, or the answer: 13 and 14 by its envelope, 6 by its command.
#[tactic(auto, unfolding(crate::specs::Asks::order_of))]
fn order_of(m: &[u8]) -> Result<Order, Answer>
    requires { 6 ≤ length m.now }
    ensures { result ≡ order_of m.now }
{
    envelope_of(m).map_err(Answer::PartWrong)?;
    command_of(m[4], &m[5..m.len() - 1]).ok_or(Answer::NotUnderstood)
}

// What a message asks. An answer in place of what is asked, 3 or 4, goes without a reply.
#[tactic(auto, unfolding(crate::specs::Asks::heard_of))]
pub fn hear(m: &[u8]) -> Result<Asked, Answer>
    ensures { result ≡ heard_of m.now }
{
    if m.len() < 6 {
        return Err(Answer::WrongLength);
    }
    if is_foreign(m) {
        return Err(Answer::NotForUs);
    }
    Ok(Asked {
        source: m[3],
        order: order_of(m),
    })
}
