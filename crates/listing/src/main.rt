// Lists a recording: reads lines of hexadecimal from standard input, one radio frame a line, and
// prints a row for each, until the input ends.
//
// What a row is stands in `listed`. Here chunks are read, rows gather in a buffer, and the buffer is
// written when it has no room for another row. A read or a write that fails ends the program, with a
// line that says so on standard error.
#![tactic(auto)]

mod rows;

ghost use Rattle.std.specs.Prelude.{◌≡◌, OnOk, IfOk, IfErr, IfSome, IfNone};
ghost use Rattle.std.specs.Io.KnownBytes.{Appends};
ghost use Rattle.hexline.specs.Reader.{end_of};
ghost use Rattle.hexline.specs.Text.{chunk_of, found_by};
ghost use Rattle.listing.specs.Buffer.{buffer_after, written_by};
ghost use Rattle.listing.specs.Chunk.{buffer, Lists, ListsOn, EndsOn};

use hexline::Reader;
use rows::Rows;
use std::io::{Read, Write};

// Why a listing is not whole.
#[derive(Clone, Copy)]
pub(crate) enum Failure {
    Input,
    Output,
}

fn main(rt: HostRuntime) {
    let mut chunk = [0u8; 65536];
    let mut rows = Rows {
        output: rt.stdout(),
        out: [0u8; 65536],
        waiting: 0,
    };
    list(&mut rt.stdin(), &mut rt.stderr(), &mut chunk, &mut rows);
}

// The rows that wait are written in the end, also where the input could not be read to its end.
fn list<W: Write>(
    input: &mut impl Read,
    errors: &mut impl Write,
    chunk: &mut [u8],
    rows: &mut Rows<W>,
) {
    if let Err(failure) = list_all(input, chunk, rows) {
        complain(errors, failure);
    }
    if let Err(failure) = rows.write() {
        complain(errors, failure);
    }
}

// A proved loop has to end, and nothing says that an input does. So the reads are counted, up to a
// number that no run comes to.
fn list_all<W: Write>(
    input: &mut impl Read,
    chunk: &mut [u8],
    rows: &mut Rows<W>,
) -> Result<(), Failure> {
    let mut reader = Reader::fresh();
    for _ in 0..u64::MAX {
        match list_some(input, reader, chunk, rows)? {
            Some(next) => reader = next,
            None => return Ok(()),
        }
    }
    Ok(())
}

// One read, and the rows of the lines that end in what it gives. None is the end of the input.
fn list_some<R: Read, W: Write>(
    input: &mut R,
    reader: Reader,
    chunk: &mut [u8],
    rows: &mut Rows<W>,
) -> Result<Option<Reader>, Failure>
    ensures unread { result ≡ Err Failure.Input → buffer rows.new ≡ buffer rows.old }
    ensures ends { IfOk result (λ next. IfNone next (EndsOn (W.contents rows.old.output) (W.contents rows.new.output) reader (buffer rows.old) (buffer rows.new))) }
    ensures lists_on { IfOk result (λ next. IfSome next (λ on. ListsOn (R.remaining input.old) (R.remaining input.new) (W.contents rows.old.output) (W.contents rows.new.output) reader (buffer rows.old) chunk.new on (buffer rows.new))) }
{
    match input.read(chunk) {
        Err(_) => Err(Failure::Input),
        Ok(0) => {
            list_end(reader, rows)?;
            Ok(None)
        }
        Ok(n) => Ok(Some(list_chunk(reader, &chunk[..n], rows)?)),
    }
}

// The row of a last line without a newline.
fn list_end<W: Write>(reader: Reader, rows: &mut Rows<W>) -> Result<(), Failure>
    ensures out_after { buffer rows.new ≡ buffer_after (found_by (end_of reader)) (buffer rows.old) }
    ensures written { OnOk result (Appends (W.contents rows.old.output) (W.contents rows.new.output) (written_by (found_by (end_of reader)) (buffer rows.old))) }
    ensures failed { IfErr result (λ e. e ≡ Failure.Output) }
{
    rows.add(reader.end())
}

// The rows of the lines that end in a chunk. If a write fails the rest of it is left.
fn list_chunk<W: Write>(reader: Reader, chunk: &[u8], rows: &mut Rows<W>) -> Result<Reader, Failure>
    ensures lists { IfOk result (λ next. Lists (buffer rows.old) (chunk_of reader chunk.now) next (buffer rows.new)) }
    ensures written { OnOk result (Appends (W.contents rows.old.output) (W.contents rows.new.output) (written_by (chunk_of reader chunk.now).found (buffer rows.old))) }
    ensures failed { IfErr result (λ e. e ≡ Failure.Output) }
{
    let mut next = reader;
    let mut rest = chunk;
    // A step is as long as what was taken, so that no range and no `chunks` has it.
    while !rest.is_empty() {
        let taken = next.take(rest);
        next = taken.reader;
        rest = &rest[taken.used..];
        rows.add(taken)?;
    }
    Ok(next)
}

// Says what failed. Where standard error takes nothing either, there is no one to tell.
fn complain(errors: &mut impl Write, failure: Failure) {
    let line: &[u8] = match failure {
        Failure::Input => b"listing: the input cannot be read\n",
        Failure::Output => b"listing: the output cannot be written\n",
    };
    let _ = errors.write_all(line);
}
