// Frames from the radio by the transfer: one to eight of them, of one receiver count, which stand one after
// another in one input.
//
// `read` is the call. It takes what it is given, and refuses before any frame is read what is wrong with the
// whole of it. Then the frames are read in order, each by its single read, up to the first that is refused: those
// before it stay read.
#![tactic(auto)]

ghost use Rattle.std.specs.Prelude.{◌≡◌, ◌<◌, length};
ghost use Rattle.wire.specs.Answers.{Accepted};
ghost use Rattle.transfer.specs.Steps.{Ready, row_after, reached, next};
ghost use Rattle.transfer.specs.Transfer.{transfer_of, gave, none_read, one_more, one_by_one, answer_of, count, frame_at, frames_in};

use layout::Row;
use radio_status::record::Status;
use wire::{Answer, Refusal};

// What a transfer gives: the answer, how many frames were read, and the record after them. A refused frame and
// those behind it are not read; its answer, place and all, is the transfer's, and the number of frames read is
// its index, from 0. No Result of the others: they are given beside the refusal of a frame too.
#[derive(Clone, Copy)]
pub struct Transfer {
    pub answer: Answer,
    pub frames: usize,
    pub status: Status,
}

// Reads the frames of a transfer for a number of receivers. Each frame's values stand behind those of the
// frames before it, as a single read gives them: I and Q in slot order in `iq`, one microphone value a slot in
// `mic`. Longer slices keep their remainder. Its refusals, in order: BAD_COUNT, LENGTH, SHORT_BUFFER, all
// before any frame is read; then those of the first frame that is refused, NO_SYNC, PADDING and RESERVED.
#[tactic(auto, using(crate::proofs::WithRow::row_ready, crate::proofs::WithRow::read_with_row, crate::proofs::WithRow::refused_whole))]
pub fn read(
    input: &[u8],
    receivers: usize,
    iq: &mut [i32],
    mic: &mut [i16],
    status: Status,
) -> Transfer
    ensures { gave result iq.new mic.new ≡ transfer_of input.now receivers iq.old mic.old status }
{
    match row_of_whole(input.len(), receivers, iq.len(), mic.len()) {
        Ok(row) => read_frames(input, row, iq, mic, status),
        Err(refusal) => ended(Err(refusal), 0, status),
    }
}

fn ended(answer: Answer, frames: usize, status: Status) -> Transfer
    ensures { result ≡ record { answer = answer; frames = frames; status = status } }
{
    Transfer {
        answer,
        frames,
        status,
    }
}

// The row of every frame, or the first test of the whole that holds.
#[tactic(auto, using(crate::proofs::WithRow::no_row, crate::proofs::WithRow::left_over, crate::proofs::WithRow::no_frame, crate::proofs::WithRow::many_frames, crate::proofs::WithRow::all_values, crate::proofs::WithRow::iq_short, crate::proofs::WithRow::mic_short, crate::proofs::WithRow::both_long))]
pub(crate) fn row_of_whole(
    bytes: usize,
    receivers: usize,
    iq: usize,
    mic: usize,
) -> Result<Row, Refusal>
    ensures { result ≡ row_after (answer_of bytes receivers iq mic) receivers }
{
    let row = layout::row_of(receivers)?;
    let frames = bytes / 512;
    if bytes % 512 != 0 {
        return Err(Refusal::Length);
    }
    if frames < 1 {
        return Err(Refusal::Length);
    }
    if 8 < frames {
        return Err(Refusal::Length);
    }
    if iq < frames * row.values() {
        return Err(Refusal::ShortBuffer);
    }
    if mic < frames * row.slots {
        return Err(Refusal::ShortBuffer);
    }
    Ok(row)
}

// The frames in order, up to the first that is refused.
#[tactic(auto, using(crate::proofs::InOrder::all_read))]
pub(crate) fn read_frames(
    input: &[u8],
    row: Row,
    iq: &mut [i32],
    mic: &mut [i16],
    status: Status,
) -> Transfer
    requires { Ready (count (length input.now)) row.receivers (length input.now) (length iq.old) (length mic.old) }
    ensures { gave result iq.new mic.new ≡ one_by_one row.receivers (frames_in input.now) (none_read Accepted iq.old mic.old status) }
{
    let frames = input.len() / 512;
    let mut last = status;
    for frame in 0..frames {
        match one_more(input, frame, row, iq, mic, last) {
            Ok(after) => last = after,
            Err(refusal) => return ended(Err(refusal), frame, last),
        }
    }
    ended(Ok(()), frames, last)
}

// The single read of the frame of an index, on the record that those before it left and on the rest of the slices. It
// gives the record after it.
pub(crate) fn one_more(
    input: &[u8],
    frame: usize,
    row: Row,
    iq: &mut [i32],
    mic: &mut [i16],
    status: Status,
) -> Result<Status, Refusal>
    requires one_frame { frame < count (length input.now) }
    requires ready { Ready (count (length input.now)) row.receivers (length input.now) (length iq.old) (length mic.old) }
    ensures { next frame status result iq.new mic.new ≡ one_more row.receivers (reached frame status iq.old mic.old) (frame_at input.now frame) }
{
    let start = frame * 512;
    let iq_start = frame * row.values();
    let mic_start = frame * row.slots;
    let reading = radio::read(
        &input[start..start + 512],
        row.receivers,
        &mut iq[iq_start..],
        &mut mic[mic_start..],
        status,
    )?;
    Ok(reading.status)
}
