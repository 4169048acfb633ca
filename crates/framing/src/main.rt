// Finds the frames of a recording: reads its bytes from standard input, passes them through the stream
// reader, and prints each frame that is handed out as a line of hexadecimal, until the input ends. The
// closing line, on standard error, says how many frames were handed out and how many bytes were
// skipped and are held.
//
// What the lines are stands in `framed`. Nothing is fed at the end of the input, so that what is held
// there is not printed. A read or a write that fails, or an input that is too long, ends the program,
// with a line that says so in the place of the closing line.
#![tactic(auto)]

mod step;

ghost use Rattle.std.specs.Prelude.{◌≡◌, ◌≤◌, length, take, OnOk, IfOk, IfErr, IfSome};
ghost use Rattle.std.specs.Io.KnownBytes.{Appends};
ghost use Rattle.text.specs.Put.{gave};
ghost use Rattle.hexline.specs.Tally.{tally_of};
ghost use Rattle.framing.specs.Pass.{gone_on, passing, Passes, PassesSome, PassesOn};

use hexline::print;
use std::io::{Read, Write};
use step::{Buffers, Passed};
use stream::Stream;

// Why not all frames of a recording are printed.
#[derive(Clone, Copy)]
enum Failure {
    Input,
    TooLong,
    Output,
}

fn main(rt: HostRuntime) {
    let mut piece = [0u8; 4096];
    let mut buffers = Buffers {
        frames: [0u8; 4096],
        text: [0u8; 8200],
    };
    find(
        &mut rt.stdin(),
        &mut rt.stdout(),
        &mut rt.stderr(),
        &mut piece,
        &mut buffers,
    );
}

// Prints the frames, and says how that ended.
fn find(
    input: &mut impl Read,
    output: &mut impl Write,
    errors: &mut impl Write,
    piece: &mut [u8; 4096],
    buffers: &mut Buffers,
) {
    match pass(input, output, piece, buffers) {
        Ok(stream) => close(errors, stream, &mut buffers.text),
        Err(failure) => complain(errors, failure),
    }
}

// The stream's record at the end of the input. A proved loop has to end, and nothing says that an input
// does. So the reads are counted, up to a number that no run comes to: each but the last gives a byte,
// and the stream is full after 2^48.
fn pass(
    input: &mut impl Read,
    output: &mut impl Write,
    piece: &mut [u8; 4096],
    buffers: &mut Buffers,
) -> Result<Stream, Failure> {
    let mut passed = Passed {
        stream: Stream::fresh(),
        waiting: 0,
    };
    for _ in 0..u64::MAX {
        match pass_some(input, output, passed, piece, buffers)? {
            Some(next) => passed = next,
            None => return Ok(passed.stream),
        }
    }
    Err(Failure::TooLong)
}

// One read, and the lines of the frames that come of it. None is the end of the input.
fn pass_some<R: Read, W: Write>(
    input: &mut R,
    output: &mut W,
    given: Passed,
    piece: &mut [u8; 4096],
    buffers: &mut Buffers,
) -> Result<Option<Passed>, Failure>
    ensures passes_some { IfOk result (λ next. IfSome next (λ p. PassesSome given.stream piece.new buffers.old.frames buffers.old.text (gone_on p) buffers.new.text)) }
    ensures passes_on { IfOk result (λ next. IfSome next (λ p. PassesOn (R.remaining input.old) (R.remaining input.new) (W.contents output.old) (W.contents output.new) given.stream piece.new buffers.old.frames buffers.old.text (gone_on p) buffers.new.text)) }
{
    match input.read(piece) {
        Err(_) => Err(Failure::Input),
        Ok(0) => Ok(None),
        Ok(got) => Ok(Some(pass_piece(output, given, &piece[..got], buffers)?)),
    }
}

// The bytes of a read, through the stream, and the text to standard output.
fn pass_piece<W: Write>(
    output: &mut W,
    given: Passed,
    bytes: &[u8],
    buffers: &mut Buffers,
) -> Result<Passed, Failure>
    requires { length bytes.now ≤ 4096 }
    ensures passes { IfOk result (λ next. Passes given.stream bytes.now buffers.old.frames buffers.old.text (gone_on next) buffers.new.text) }
    ensures written { IfOk result (λ next. Appends (W.contents output.old) (W.contents output.new) (take next.waiting buffers.new.text)) }
{
    let next = feed_on(given, bytes, buffers)?;
    let waiting = next.waiting;
    text_output::write(output, &buffers.text[..waiting], Failure::Output)?;
    Ok(next)
}

// The bytes of a read, through the stream. The lines of the frames handed out wait at the start of the
// text. Of the refusals only STREAM_FULL can come.
fn feed_on(given: Passed, bytes: &[u8], buffers: &mut Buffers) -> Result<Passed, Failure>
    requires { length bytes.now ≤ 4096 }
    ensures passes { Passes given.stream bytes.now buffers.old.frames buffers.old.text (passing given.stream result) buffers.new.text }
    ensures failed { IfErr result (λ e. e ≡ Failure.TooLong) }
{
    let Ok(fed) = given.stream.feed(bytes, &mut buffers.frames) else {
        return Err(Failure::TooLong);
    };
    let waiting = framed::lines(&buffers.frames, fed.frames, &mut buffers.text);
    Ok(Passed {
        stream: fed.next,
        waiting,
    })
}

fn close(errors: &mut impl Write, stream: Stream, text: &mut [u8]) {
    let n = closing(stream, text);
    let line = &text[..n];
    let _ = errors.write_all(line);
}

// The closing line of a stream, at the start of a slice.
fn closing(stream: Stream, out: &mut [u8]) -> usize
    ensures { gave result out.new ≡ tally_of stream.frames stream.skipped stream.count out.old }
{
    print::tally(stream.frames, stream.skipped, stream.count as u64, out)
}

// Says what failed. Where standard error takes nothing either, there is no one to tell.
fn complain(errors: &mut impl Write, failure: Failure) {
    let line: &[u8] = match failure {
        Failure::Input => b"frames: the input cannot be read\n",
        Failure::TooLong => b"frames: the input is longer than 2^48 bytes\n",
        Failure::Output => b"frames: the output cannot be written\n",
    };
    let _ = errors.write_all(line);
}
