// The samples of a radio frame, both ways: read from its payload into lent slices, or written over it.
//
// `read_samples` and `write_samples` take any receiver count and slices of any length. Each does its work
// on all of them or leaves them as they are.
#![tactic(auto)]

mod fill;
mod samples;

ghost use Rattle.std.specs.Prelude.{◌≡◌};
ghost use Rattle.radio_samples.specs.Fill.{samples_over};
ghost use Rattle.radio_samples.specs.Samples.{fit, samples_read};

use layout::Row;

// Every sample of a payload of 504 bytes, in slot order, at the start of its slice. A count that is not 1
// to 8, another length or a slice that is too short leaves both slices as they are.
pub fn read_samples(payload: &[u8], receivers: usize, iq: &mut [i32], mic: &mut [i16])
    ensures { (iq.new, mic.new) ≡ samples_read receivers payload.now iq.old mic.old }
{
    if let Some(row) = fitting(receivers, iq.len(), mic.len(), payload.len(), 504) {
        samples::read_slots(payload, row, iq, mic);
    }
}

// The payload of a frame of 512 bytes: every slot, one after another, from byte 8 on, and zeros to the end.
// A count that is not 1 to 8, another length or a slice that is too short leaves the frame as it is.
pub fn write_samples(iq: &[i32], mic: &[i16], receivers: usize, frame: &mut [u8])
    ensures { frame.new ≡ samples_over receivers iq.now mic.now frame.old }
{
    if let Some(row) = fitting(receivers, iq.len(), mic.len(), frame.len(), 512) {
        fill::write_slots(iq, mic, row, frame);
        let start = row.padding_start();
        frame[start..].fill(0);
    }
}

// The row of a count of 1 to 8, where slices of these lengths hold a frame's samples and as many bytes are there
// as are due.
#[tactic(auto, unfolding(crate::specs::Samples::roomy))]
pub(crate) fn fitting(
    receivers: usize,
    iq: usize,
    mic: usize,
    bytes: usize,
    due: usize,
) -> Option<Row>
    ensures { result ≡ fit receivers iq mic bytes due }
{
    let row = layout::row_of(receivers).ok()?;
    // each by itself, and not by `is_short`, since the definition says of each that it is enough
    if iq < row.values() {
        return None;
    }
    if mic < row.slots {
        return None;
    }
    if bytes != due {
        return None;
    }
    Some(row)
}
