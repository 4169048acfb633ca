// Frames from the radio by the transfer, as C and Rust see them: on numbers and lent slices, with the status record as
// cells.
//
// It is a library of its own beside `hpsdr`, of which an object of its own is made, so that neither changes how the
// other is compiled.
#![tactic(auto)]

ghost use Rattle.std.specs.Prelude.{◌≡◌, ◌≤◌, length};
ghost use Rattle.wire.specs.Answers.{told};
ghost use Rattle.cells.specs.Cells.{got};
ghost use Rattle.radio_door.specs.Status.{status_cells};
ghost use Rattle.radio_door.specs.Radio.{gave};
ghost use Rattle.hpsdr_transfer.specs.Transfer.{kept_after, read_transfer_of};

use radio_door::status::{status_cells, status_from};
use transfer::Transfer;
use wire::copy::put;
use wire::tell;

#[unsafe(no_mangle)]
pub extern "C" fn hpsdr_radio_read_transfer(
    input: &[u8],
    receivers: usize,
    iq: &mut [i32],
    mic: &mut [i16],
    status: &mut [u32],
) -> u32
    ensures { gave result status.new iq.new mic.new ≡ read_transfer_of input.now receivers iq.old mic.old status.old }
{
    match status_from(status) {
        Ok(given) => {
            let done = transfer::read(input, receivers, iq, mic, given);
            keep(done, status)
        }
        Err(refusal) => tell(Err(refusal)),
    }
}

// What a transfer returns; where a frame was read, the record after the last of them stands in the cells.
pub(crate) fn keep(done: Transfer, cells: &mut [u32]) -> u32
    requires { (26 ≤ length cells.old) × (done.frames ≤ 8) }
    ensures value { result ≡ got (told done.answer) done.frames }
    ensures cells_after { cells.new ≡ kept_after done.frames (status_cells done.status) cells.old }
{
    if done.frames != 0 {
        put(cells, 0, &status_cells(done.status));
    }
    tell(done.answer) + 256 * (done.frames as u32)
}
