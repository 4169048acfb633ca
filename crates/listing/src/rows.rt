// Rows that gather in a buffer on their way to an output.
ghost use Rattle.std.specs.Prelude.{◌≡◌, take, OnOk, IfErr};
ghost use Rattle.std.specs.Io.KnownBytes.{Appends};
ghost use Rattle.text.specs.Put.{gave};
ghost use Rattle.hexline.specs.Text.{found_by};
ghost use Rattle.listing.specs.Buffer.{Room, buffer_after, written_by};

use crate::Failure;
use hexline::Taken;
use hexline::print::ROW;
use std::io::Write;

// The rows that wait to be written stand at the start of `out`, which has room for another.
#[derive(Drop)]
pub(crate) struct Rows<W> {
    pub(crate) output: W,
    pub(crate) out: [u8; 65536],
    pub(crate) waiting: usize,
    pub(crate) ghost room: { Room (gave waiting out) },
}

impl<W: Write> Rows<W> {
    ghost use Rattle.listing.specs.Chunk.{buffer};

    // The row of the line that ended, if one did, goes after the rows that wait. Where there is no room
    // for another they are all written.
    pub(crate) fn add(&mut self, taken: Taken) -> Result<(), Failure>
        ensures row { buffer self.new ≡ buffer_after (found_by taken) (buffer self.old) }
        ensures written { OnOk result (Appends (W.contents self.old.output) (W.contents self.new.output) (written_by (found_by taken) (buffer self.old))) }
        ensures failed { IfErr result (λ e. e ≡ Failure.Output) }
    {
        let next = listed::row(taken, &mut self.out, self.waiting);
        if self.out.len() - next < ROW {
            self.waiting = 0;
            return text_output::write(&mut self.output, &self.out[..next], Failure::Output);
        }
        self.waiting = next;
        Ok(())
    }

    // The rows that wait are written.
    pub(crate) fn write(&mut self) -> Result<(), Failure>
        ensures none_wait { self.new.waiting ≡ 0 }
        ensures written { OnOk result (Appends (W.contents self.old.output) (W.contents self.new.output) (take self.old.waiting self.old.out)) }
        ensures failed { IfErr result (λ e. e ≡ Failure.Output) }
    {
        let waiting = self.waiting;
        self.waiting = 0;
        text_output::write(&mut self.output, &self.out[..waiting], Failure::Output)
    }
}
