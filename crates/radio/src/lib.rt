// Frames from the radio: one frame read into lent slices of samples and a status record, or written
// from them.
//
// `read` and `write` are the calls. Each takes what it is given: a receiver count, a frame, slices and a
// record of any kind. It answers one of its refusals and leaves all as it was, or does its work. A read
// gives every sample of the frame, says which word came, and hands back the record with that word's fields
// in it; refused for its sync or its padding it says which byte is wrong, and for a level above 4,095 which level.
// A write settles every byte of the frame.
#![tactic(auto)]

pub mod export;

ghost use Rattle.std.specs.Prelude.{◌≡◌, length};
ghost use Rattle.radio.specs.Read.{read_of, gave, left, frame_answer, bad_padding};
ghost use Rattle.radio.specs.Write.{write_of, gave as wrote, later_answer};

use layout::Row;
use radio_samples::{read_samples, write_samples};
use radio_status::control::{status_fits, write_header};
use radio_status::levels::levels_of;
use radio_status::record::Status;
use radio_status::words::{Word, apply, decode};
use wire::control::Control;
use wire::numbers::all_fit24;
use wire::places::first_other;
use wire::sync::{no_sync, sync_at};
use wire::zeros::all_zero;
use wire::{Answer, Refusal};

// What a read gives: the word that came, and the record after it.
#[derive(Clone, Copy)]
pub struct Reading {
    pub word: Word,
    pub status: Status,
}

// Reads a frame for a number of receivers: I and Q values in slot order at the start of `iq`, one
// microphone value a slot at the start of `mic`. Longer slices keep their remainder. Its refusals, in order:
// BAD_COUNT, LENGTH, SHORT_BUFFER, NO_SYNC, PADDING, RESERVED, the last three with the first byte that is wrong or
// the first level above 4,095. The slices go one by one and with any length, as C lends them.
pub fn read(
    frame: &[u8],
    receivers: usize,
    iq: &mut [i32],
    mic: &mut [i16],
    status: Status,
) -> Result<Reading, Refusal>
    ensures { gave status result iq.new mic.new ≡ read_of frame.now receivers iq.old mic.old status }
{
    let row = layout::row_of(receivers)?;
    refusal(frame, row, iq.len(), mic.len())?;
    let control = Control::of(frame);
    let levels = levels_of(control)?;
    // told before the samples are read: a record that is held across their loops makes them slower
    let word = decode(control, levels);
    let reading = Reading {
        word,
        status: apply(status, control.c0, word),
    };
    read_samples(&frame[8..], receivers, iq, mic);
    Ok(reading)
}

// A read whose record stands where it is lent: it is the record given and then the record after the
// frame. It gives the word that came. Refused, the record is left as it was.
pub fn update(
    frame: &[u8],
    receivers: usize,
    iq: &mut [i32],
    mic: &mut [i16],
    status: &mut Status,
) -> Result<Word, Refusal>
    ensures { left result status.new iq.new mic.new ≡ read_of frame.now receivers iq.old mic.old status.old }
{
    let reading = read(frame, receivers, iq, mic, *status)?;
    *status = reading.status;
    Ok(reading.word)
}

// The first test of a frame that holds, once the receiver count has its row and before its levels are looked at.
#[tactic(auto, unfolding(crate::specs::Read::frame_answer), using(crate::proofs::Rest::rest_whole))]
pub(crate) fn refusal(frame: &[u8], row: Row, iq: usize, mic: usize) -> Answer
    ensures { result ≡ frame_answer frame.now row.receivers iq mic }
{
    if frame.len() != 512 {
        return Err(Refusal::Length);
    }
    if row.is_short(iq, mic) {
        return Err(Refusal::ShortBuffer);
    }
    if !sync_at(frame, 0) {
        return Err(no_sync(frame));
    }
    if !all_zero(&frame[row.padding_start()..]) {
        return Err(bad_padding(frame, row));
    }
    Ok(())
}

// The refusal of a frame whose padding is not zero: the first byte there that is not.
#[tactic(auto, using(crate::proofs::Rest::within_frame, crate::proofs::Rest::rest_whole))]
pub(crate) fn bad_padding(frame: &[u8], row: Row) -> Refusal
    requires { length frame.now ≡ 512 }
    ensures { result ≡ bad_padding row.receivers frame.now }
{
    let start = row.padding_start();
    let place = first_other(&frame[start..], 0);
    Refusal::Padding((start + place) as u16)
}

// Writes the frame that carries a word of the record: I and Q values in slot order from the start of
// `iq`, one microphone value a slot from the start of `mic`. Every byte of the frame is written. Its
// refusals, in order: BAD_COUNT, LENGTH, SHORT_BUFFER, RANGE. The word is a number: one that no word has is refused.
pub fn write(
    status: Status,
    word: usize,
    receivers: usize,
    iq: &[i32],
    mic: &[i16],
    frame: &mut [u8],
) -> Answer
    ensures { wrote result frame.new ≡ write_of status word receivers iq.now mic.now frame.old }
{
    let row = layout::row_of(receivers)?;
    write_refusal(status, word, row, iq, mic.len(), frame.len())?;
    write_header(status, word as u8, frame);
    write_samples(iq, mic, receivers, frame);
    Ok(())
}

// The first test of a write that holds, once the receiver count has its row. The whole record is
// tested, whichever word is due, and of the samples only those that are needed.
#[tactic(auto, unfolding(crate::specs::Write::later_answer, crate::specs::Write::in_range))]
pub(crate) fn write_refusal(
    status: Status,
    word: usize,
    row: Row,
    iq: &[i32],
    mic: usize,
    frame: usize,
) -> Answer
    ensures { result ≡ later_answer status word row.receivers iq.now mic frame }
{
    let needed = row.values();
    if frame != 512 {
        return Err(Refusal::Length);
    }
    if row.is_short(iq.len(), mic) {
        return Err(Refusal::ShortBuffer);
    }
    if !all_fit24(&iq[..needed]) {
        return Err(Refusal::Range);
    }
    if !status_fits(status) {
        return Err(Refusal::Range);
    }
    if 4 < word {
        return Err(Refusal::Range);
    }
    Ok(())
}
