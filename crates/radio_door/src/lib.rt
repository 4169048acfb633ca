// Frames from the radio, and how they are laid out, on numbers and lent slices: the status record crosses
// as cells.
#![tactic(auto)]

pub mod status;

ghost use Rattle.std.specs.Prelude.{◌≡◌, ◌≤◌};
ghost use Rattle.radio_status.specs.Record.{fresh_status};
ghost use Rattle.wire.specs.Answers.{number_of};
ghost use Rattle.cells.specs.Cells.{returned_by, wrote, offered};
ghost use Rattle.radio_door.specs.Status.{status_cells};
ghost use Rattle.radio_door.specs.Radio.{gave, radio_read_of, radio_write_of};
ghost use Rattle.radio_door.specs.Layout.{row_cells, layout_of};

use crate::status::{status_cells, status_from};
use cells::offer;
use layout::Row;
use radio_status::record::Status;
use wire::copy::put;
use wire::{Answer, Refusal};

// A read gives the number of the word that came.
#[tactic(auto, using(crate::proofs::RadioCases::read_none))]
pub fn radio_read(
    frame: &[u8],
    receivers: usize,
    iq: &mut [i32],
    mic: &mut [i16],
    status: &mut [u32],
) -> Result<u8, Refusal>
    ensures { gave (returned_by result) status.new iq.new mic.new ≡ radio_read_of frame.now receivers iq.old mic.old status.old }
{
    let given = status_from(status)?;
    let reading = radio::read(frame, receivers, iq, mic, given)?;
    put(status, 0, &status_cells(reading.status));
    Ok(u8::from(reading.word))
}

#[tactic(auto, using(crate::proofs::RadioCases::write_none))]
pub fn radio_write(
    status: &[u32],
    word: usize,
    receivers: usize,
    iq: &[i32],
    mic: &[i16],
    frame: &mut [u8],
) -> Answer
    ensures { wrote (number_of result) frame.new ≡ radio_write_of status.now word receivers iq.now mic.now frame.old }
{
    let given = status_from(status)?;
    radio::write(given, word, receivers, iq, mic, frame)
}

pub fn status_fresh(status: &mut [u32]) -> Answer
    ensures { wrote (number_of result) status.new ≡ offered (status_cells fresh_status) status.old }
{
    offer(status, &status_cells(Status::fresh()))
}

// The row of a number of receivers: a slot's bytes, the slots of a frame, the bytes of padding.
#[tactic(auto, using(crate::proofs::LayoutCases::layout_few, crate::proofs::LayoutCases::layout_refused, crate::proofs::LayoutCases::layout_found))]
pub fn layout_row(receivers: usize, row: &mut [u32]) -> Answer
    ensures { wrote (number_of result) row.new ≡ layout_of receivers row.old }
{
    if row.len() < 3 {
        return Err(Refusal::BadState);
    }
    let found = layout::row_of(receivers)?;
    offer(row, &row_cells(found))
}

pub(crate) fn row_cells(row: Row) -> [u32; 3]
    requires { row.receivers ≤ 8 }
    ensures { result ≡ row_cells row.receivers }
{
    [row.slot as u32, row.slots as u32, row.padding as u32]
}
