// The line about a run.
ghost use Rattle.std.specs.Prelude.{◌≤◌, ◌+◌, get_or};
ghost use Rattle.text.specs.Put.{Puts};
ghost use Rattle.sentences.specs.Run.{run_text, run_handed, run_skipped, run_held};

use crate::parts::{byte_after, counted, labelled, subject, wrong};
use text::Writer;
use why::{Reason, Run};

pub(crate) fn run(writer: &mut Writer, input: &[u8], start: usize, run: Run)
    requires { start ≤ 65536 }
    ensures { Puts writer.old writer.new (run_text input.now start run.end run.reason) }
{
    let end = run.end;
    match run.reason {
        Reason::NotGiven => {}
        Reason::Inside(_) => handed(writer, start, end),
        Reason::Near(k) => skipped(writer, input, start, end, start, k),
        Reason::Far(k) => skipped(writer, input, start, end, start + 512, k),
        Reason::Held => held(writer, start, end),
    }
}

pub(crate) fn handed(writer: &mut Writer, start: usize, end: usize)
    ensures { Puts writer.old writer.new (run_handed start end) }
{
    subject(
        writer,
        start,
        end,
        b" was handed out: ",
        b" were handed out: ",
    );
    counted(
        writer,
        end.saturating_sub(start) / 512,
        b" frame\n",
        b" frames\n",
    );
}

// Byte k of the sync at a place is wrong.
pub(crate) fn skipped(
    writer: &mut Writer,
    input: &[u8],
    start: usize,
    end: usize,
    sync: usize,
    k: u8,
)
    ensures { Puts writer.old writer.new (run_skipped start end k sync (get_or input.now (sync + k) 0)) }
{
    subject(
        writer,
        start,
        end,
        b" was skipped: byte ",
        b" were skipped, the first because byte ",
    );
    writer.number(u64::from(k));
    labelled(writer, b" of the sync at byte ", sync);
    wrong(writer, byte_after(input, sync, usize::from(k)));
}

pub(crate) fn held(writer: &mut Writer, start: usize, end: usize)
    ensures { Puts writer.old writer.new (run_held start end) }
{
    subject(
        writer,
        start,
        end,
        b" is still held\n",
        b" are still held\n",
    );
}
