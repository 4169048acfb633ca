// What is printed: the row of a listing for a line of the text, and the line that closes a reading of
// a stream.
ghost use Rattle.std.specs.Prelude.{◌≡◌, ◌∷◌};
ghost use Rattle.text.specs.Numbers.{decimal_of};
ghost use Rattle.text.specs.Put.{gave, Puts};
ghost use Rattle.hexline.specs.Printed.{space, row_for, accepted_columns, spaced, ended};
ghost use Rattle.hexline.specs.Tally.{labelled_of, tally_of};

use text::Writer;
use wire::Refusal;

// Room for any row.
pub const ROW: usize = 64;

// Room for any closing line.
pub const TALLY: usize = 128;

// What a row shows of a frame that was read.
#[derive(Clone, Copy)]
pub struct Columns {
    pub address: u8,
    pub dot: bool,
    pub dash: bool,
    pub ptt: bool,
}

// Writes the row of a line, by what its reading gave, at the start of out and answers how many bytes it
// has. An out of less than 64 bytes stays as it is, and the answer is 0: how many bytes were written, which is what a caller goes on
// with either way.
pub fn row(number: u64, read: Result<Columns, Refusal>, out: &mut [u8]) -> usize
    ensures { gave result out.new ≡ row_for number read out.old }
{
    if out.len() < ROW {
        return 0;
    }
    let mut writer = Writer { out, at: 0 };
    writer.decimal(number);
    match read {
        Ok(columns) => {
            column(&mut writer, 0);
            accepted(&mut writer, columns);
        }
        Err(refusal) => {
            column(&mut writer, refusal.number());
            writer.put(b" - - - -\n");
        }
    }
    writer.at
}

// Writes the closing line at the start of out and answers how many bytes it has. An out of less than
// 128 bytes stays as it is, and the answer is 0.
pub fn tally(frames: u64, skipped: u64, held: u64, out: &mut [u8]) -> usize
    ensures { gave result out.new ≡ tally_of frames skipped held out.old }
{
    if out.len() < TALLY {
        return 0;
    }
    let mut writer = Writer { out, at: 0 };
    labelled(&mut writer, b"frames: handed out ", frames);
    labelled(&mut writer, b", bytes skipped ", skipped);
    labelled(&mut writer, b", bytes held ", held);
    writer.byte(b'\n');
    writer.at
}

// A text, and a number in decimal.
pub(crate) fn labelled(writer: &mut Writer, label: &[u8], n: u64)
    ensures { Puts writer.old writer.new (labelled_of label.now n) }
{
    writer.put(label);
    writer.decimal(n);
}

// Address, DOT, DASH and PTT, and the newline.
pub(crate) fn accepted(writer: &mut Writer, columns: Columns)
    ensures { Puts writer.old writer.new
        (space ∷ ended (spaced (accepted_columns columns.address columns.dot columns.dash columns.ptt))) }
{
    column(writer, columns.address);
    column(writer, u8::from(columns.dot));
    column(writer, u8::from(columns.dash));
    column(writer, u8::from(columns.ptt));
    writer.byte(b'\n');
}

// A space, and a number in decimal.
pub(crate) fn column(writer: &mut Writer, n: u8)
    ensures { Puts writer.old writer.new (space ∷ decimal_of n) }
{
    writer.byte(b' ');
    writer.decimal(u64::from(n));
}
