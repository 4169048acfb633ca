// The control bytes of a frame that is written: sync, C0, and C1 to C4 of the word that is due.
ghost use Rattle.std.specs.Prelude.{◌≡◌, ◌≤◌};
ghost use Rattle.radio_status.specs.Control.{key_byte, input_bytes, board_byte, board_bytes, level_bytes, Versioned, versions_fit, levels_fit, status_fits, word_bytes, header_over};

use crate::record::{Inputs, Overflow, Status, Versions};
use wire::fields::{eight_flags, flag_of};
use wire::numbers::bytes_of_u16;
use wire::sync::put_header;

// Sync and C0 to C4 over the start of a frame. With a version above 127, a level above 4,095 or a word number
// above 4, the frame is left as it is, and so is one with no room for them. The word that is due is a number, since
// document 01 numbers the words, and a caller may give one that no word has.
#[tactic(auto, unfolding(crate::specs::Control::header_over))]
pub fn write_header(status: Status, word: u8, frame: &mut [u8])
    ensures { frame.new ≡ header_over status word frame.old }
{
    if !status_fits(status) {
        return;
    }
    if 4 < word {
        return;
    }
    let c0 = key_byte(status, word);
    put_header(frame, c0, word_bytes(status, word));
}

pub(crate) fn key_byte(status: Status, word: u8) -> u8
    requires { word ≤ 4 }
    ensures { result ≡ key_byte status word }
{
    flag_of(status.ptt) + flag_of(status.dash) * 2 + flag_of(status.dot) * 4 + word * 8
}

#[tactic(auto, unfolding(crate::specs::Control::word_bytes))]
pub(crate) fn word_bytes(status: Status, word: u8) -> [u8; 4]
    requires { Versioned status.versions }
    ensures { result ≡ word_bytes status word }
{
    match word {
        0 => input_bytes(status.overflow.adc1, status.inputs),
        1 => level_bytes(status.forward.ain5, status.forward.ain1),
        2 => level_bytes(status.reverse.ain2, status.reverse.ain3),
        3 => level_bytes(status.supply.ain4, status.supply.ain6),
        _ => board_bytes(status.overflow, status.versions),
    }
}

fn input_bytes(adc1: bool, inputs: Inputs) -> [u8; 4]
    ensures { result ≡ input_bytes adc1 inputs }
{
    let c1 = eight_flags(
        adc1,
        !inputs.io1,
        !inputs.io2,
        !inputs.io3,
        !inputs.io4,
        inputs.pll,
        inputs.toggle,
        false,
    );
    [c1, inputs.mercury, inputs.penelope, inputs.main]
}

fn level_bytes(a: u16, b: u16) -> [u8; 4]
    ensures { result ≡ level_bytes a b }
{
    let [c1, c2] = bytes_of_u16(a);
    let [c3, c4] = bytes_of_u16(b);
    [c1, c2, c3, c4]
}

pub(crate) fn board_bytes(overflow: Overflow, versions: Versions) -> [u8; 4]
    requires { Versioned versions }
    ensures { result ≡ board_bytes overflow versions }
{
    [
        board_byte(overflow.adc1, versions.board1),
        board_byte(overflow.adc2, versions.board2),
        board_byte(overflow.adc3, versions.board3),
        board_byte(overflow.adc4, versions.board4),
    ]
}

pub(crate) fn board_byte(overflow: bool, version: u8) -> u8
    requires { version ≤ 127 }
    ensures { result ≡ board_byte overflow version }
{
    flag_of(overflow) + version * 2
}

// Whether the version of each board fits its seven bits.
pub(crate) fn versions_fit(versions: Versions) -> bool
    ensures { result ≡ versions_fit versions }
{
    (versions.board1 <= 127)
        & (versions.board2 <= 127)
        & (versions.board3 <= 127)
        & (versions.board4 <= 127)
}

// Whether each of the six levels fits its twelve bits.
pub(crate) fn levels_fit(status: Status) -> bool
    ensures { result ≡ levels_fit status }
{
    let forward = status.forward;
    let reverse = status.reverse;
    let supply = status.supply;
    (forward.ain5 <= 4095)
        & (forward.ain1 <= 4095)
        & (reverse.ain2 <= 4095)
        & (reverse.ain3 <= 4095)
        & (supply.ain4 <= 4095)
        & (supply.ain6 <= 4095)
}

// Whether a frame can carry every word of the record.
pub fn status_fits(status: Status) -> bool
    ensures { result ≡ status_fits status }
{
    versions_fit(status.versions) & levels_fit(status)
}
