// Frames from the radio, and how they are laid out.
ghost use Rattle.std.specs.Prelude.{◌≡◌};
ghost use Rattle.radio_status.specs.Record.{fresh_status};
ghost use Rattle.cells.specs.Cells.{wrote, offered};
ghost use Rattle.radio_door.specs.Status.{status_cells};
ghost use Rattle.radio_door.specs.Radio.{gave, radio_read_of, radio_write_of};
ghost use Rattle.radio_door.specs.Layout.{layout_of};

use cells::returned;
use radio_door::{layout_row, radio_read, radio_write, status_fresh};
use wire::number;

#[unsafe(no_mangle)]
pub extern "C" fn hpsdr_radio_read(
    frame: &[u8],
    receivers: usize,
    iq: &mut [i32],
    mic: &mut [i16],
    status: &mut [u32],
) -> u32
    ensures { gave result status.new iq.new mic.new ≡ radio_read_of frame.now receivers iq.old mic.old status.old }
{
    returned(radio_read(frame, receivers, iq, mic, status))
}

#[unsafe(no_mangle)]
pub extern "C" fn hpsdr_radio_write(
    status: &[u32],
    word: usize,
    receivers: usize,
    iq: &[i32],
    mic: &[i16],
    frame: &mut [u8],
) -> u32
    ensures { wrote result frame.new ≡ radio_write_of status.now word receivers iq.now mic.now frame.old }
{
    u32::from(number(radio_write(status, word, receivers, iq, mic, frame)))
}

#[unsafe(no_mangle)]
pub extern "C" fn hpsdr_status_fresh(status: &mut [u32]) -> u32
    ensures { wrote result status.new ≡ offered (status_cells fresh_status) status.old }
{
    u32::from(number(status_fresh(status)))
}

// The row of a number of receivers: a slot's bytes, the slots of a frame, the bytes of padding.
#[unsafe(no_mangle)]
pub extern "C" fn hpsdr_layout(receivers: usize, row: &mut [u32]) -> u32
    ensures { wrote result row.new ≡ layout_of receivers row.old }
{
    u32::from(number(layout_row(receivers, row)))
}
