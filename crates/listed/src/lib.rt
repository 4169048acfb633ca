// The listing of a recording: the row that is printed for a line of hexadecimal, one radio frame a
// line, read for one receiver.
//
// A caller hands each chunk of its input to a `hexline::Reader`, and what `take` or `end` gives to
// `row`. The rows gather in a lent slice, which the caller writes out before it is full.
#![tactic(auto)]

ghost use Rattle.std.specs.Prelude.{◌≡◌, ℕ};
ghost use Rattle.hexline.specs.Lines.{a_frame};
ghost use Rattle.text.specs.Put.{gave};
ghost use Rattle.hexline.specs.Text.{found_by};
ghost use Rattle.listed.specs.Rows.{text_for, row_text, rows_of, printed, row_at};

use hexline::print::Columns;
use hexline::{Line, Taken, print};
use radio_status::record::Status;
use wire::Refusal;
use wire::fields::field;

// Writes the row of the line that ended, if one did, at a place of out, and answers the place after
// it. With less than 64 bytes from that place on, out stays as it is and the answer is the place.
pub fn row(taken: Taken, out: &mut [u8], at: usize) -> usize
    ensures { gave result out.new ≡ row_at taken at out.old }
{
    if out.len() < at {
        return at;
    }
    at + start(taken, &mut out[at..])
}

// The same at the start of a slice; the answer is how many bytes the row has.
pub(crate) fn start(taken: Taken, out: &mut [u8]) -> usize
    ensures { gave result out.new ≡ printed (rows_of (found_by taken)) out.old }
{
    let reader = taken.reader;
    let read = match taken.line {
        Line::Unfinished => return 0,
        Line::Frame => shown(&reader.frame),
        Line::Length => Err(Refusal::Length),
    };
    print::row(reader.number, read, out)
}

// What a row shows of a line that is a frame, by the read of it for one receiver: the address from C0, and DOT,
// DASH and PTT from the status record.
pub(crate) fn shown(frame: &[u8; 512]) -> Result<Columns, Refusal>
    ensures { (number : ℕ) → text_for number result ≡ row_text number (a_frame frame.now) }
{
    let mut iq = [0i32; 126];
    let mut mic = [0i16; 63];
    let reading = radio::read(frame, 1, &mut iq, &mut mic, Status::fresh())?;
    let status = reading.status;
    Ok(Columns {
        address: field(frame[3], 7, 3),
        dot: status.dot,
        dash: status.dash,
        ptt: status.ptt,
    })
}
