// Says why a byte of a recording was thrown out: reads a recording of up to 65,536 bytes from standard
// input and, for the place that is the program's argument, prints the reason and the bytes around it.
// Without an argument it prints what became of all the bytes, a line for each run of them.
//
// The reasons stand in `why`, the words in `sentences`, the bytes in `explained`. What cannot be done is
// said in one line on standard error.
#![tactic(auto)]

mod recording;

ghost use Rattle.std.specs.Prelude.{◌≡◌, ◌≤◌, length, IfOk, IfErr};
ghost use Rattle.text.specs.Put.{gave};
ghost use Rattle.explaining.specs.Told.{told_in, place_told, complaint_of, line_in, run_told};

use recording::Recording;
use std::env::{Env, FillError};
use std::io::{Read, Write};
use text::place::place_of;

// Why what is asked for is not told.
#[derive(Clone, Copy)]
pub(crate) enum Failure {
    Usage,
    NoNumber,
    Input,
    TooLong,
    // of an input of this length
    PastEnd(usize),
    Output,
}

// The line of a run at the start of a buffer, and where the run ends.
#[derive(Clone, Copy)]
struct Line {
    count: usize,
    end: usize,
}

fn main(rt: HostRuntime) {
    let input = &mut rt.stdin();
    let output = &mut rt.stdout();
    if let Err(failure) = answer(&rt, input, output) {
        complain(&mut rt.stderr(), failure);
    }
}

// Tells what is asked for.
fn answer(env: &impl Env, input: &mut impl Read, output: &mut impl Write) -> Result<(), Failure> {
    let place = asked(env)?;
    read_and_tell(input, output, place)
}

// The recording has its room only here, behind the look at the arguments: refused ones take a small stack. The text's buffer
// takes the input's pieces first.
#[inline(never)]
fn read_and_tell(
    input: &mut impl Read,
    output: &mut impl Write,
    place: Option<u64>,
) -> Result<(), Failure> {
    let mut recording = Recording {
        bytes: [0u8; 65536],
        count: 0,
    };
    let mut text = [0u8; 4096];
    recording.gather(input, &mut text)?;
    let count = recording.count;
    tell(output, place, &recording.bytes[..count], &mut text)
}

// The place that is asked about. None asks about everything.
fn asked(env: &impl Env) -> Result<Option<u64>, Failure> {
    let mut word = [0u8; 4096];
    match env.arg(2, &mut word) {
        Err(FillError::NotPresent) => {}
        _ => return Err(Failure::Usage),
    }
    match env.arg(1, &mut word) {
        Err(FillError::NotPresent) => Ok(None),
        // A word that is longer than the buffer is no number.
        Err(FillError::TooLong) => Err(Failure::NoNumber),
        Ok(n) => {
            let place = place_of(&word[..n]).ok_or(Failure::NoNumber)?;
            Ok(Some(place))
        }
    }
}

fn tell(
    output: &mut impl Write,
    place: Option<u64>,
    input: &[u8],
    out: &mut [u8],
) -> Result<(), Failure> {
    match place {
        None => tell_all(output, input, out),
        Some(place) => tell_place(output, input, place as usize, out),
    }
}

fn tell_place(
    output: &mut impl Write,
    input: &[u8],
    place: usize,
    out: &mut [u8],
) -> Result<(), Failure> {
    let count = place_text(input, place, out)?;
    text_output::write(output, &out[..count], Failure::Output)
}

// The sentence and the bytes for a place, unless the input has no such place: it is not too long.
fn place_text(input: &[u8], place: usize, out: &mut [u8]) -> Result<usize, Failure>
    ensures count_in_bounds { IfOk result (λ count. count ≤ length out.new) }
    ensures out_after { told_in result out.new ≡ place_told input.now place out.old }
    ensures failed { IfErr result (λ e. e ≡ Failure.PastEnd (length input.now)) }
{
    let Ok(reason) = why::explain(input, place) else {
        return Err(Failure::PastEnd(input.len()));
    };
    Ok(explained::shown(input, place, reason, out))
}

fn tell_all(output: &mut impl Write, input: &[u8], out: &mut [u8]) -> Result<(), Failure> {
    if input.is_empty() {
        return text_output::write(output, b"there are no bytes\n", Failure::Output);
    }
    tell_runs(output, input, out)
}

// Each run goes on where the one before it ends, so the reading is followed once.
fn tell_runs(output: &mut impl Write, input: &[u8], out: &mut [u8]) -> Result<(), Failure> {
    let mut start = 0;
    // A step is as long as the run that begins there, so that no range has it.
    while start < input.len() {
        let line = run_text(input, start, out);
        let count = line.count;
        text_output::write(output, &out[..count], Failure::Output)?;
        start = line.end;
    }
    Ok(())
}

fn run_text(input: &[u8], start: usize, out: &mut [u8]) -> Line
    ensures count_in_bounds { result.count ≤ length out.new }
    ensures out_after { line_in result out.new ≡ run_told input.now start out.old }
{
    let run = why::run_from(input, start);
    let end = run.end;
    Line {
        count: sentences::run_line(input, start, run, out),
        end,
    }
}

// Says what failed.
fn complain(errors: &mut impl Write, failure: Failure) {
    match failure {
        Failure::Usage => say(errors, b"usage: ./why [PLACE] < RECORDING\n"),
        Failure::NoNumber => say(
            errors,
            b"why: the place is no number: give it in decimal digits\n",
        ),
        Failure::Input => say(errors, b"why: the input cannot be read\n"),
        Failure::TooLong => say(errors, b"why: the input is longer than 65,536 bytes\n"),
        Failure::PastEnd(_) => {
            let mut line = [0u8; sentences::LINE];
            let count = complaint(failure, &mut line);
            say(errors, &line[..count]);
        }
        Failure::Output => say(errors, b"why: the output cannot be written\n"),
    }
}

// The line for a place past the end, at the start of a buffer. The others are texts that nothing is put into.
fn complaint(failure: Failure, out: &mut [u8]) -> usize
    ensures count_in_bounds { result ≤ length out.new }
    ensures out_after { gave result out.new ≡ complaint_of failure out.old }
{
    match failure {
        Failure::PastEnd(length) => sentences::past_end(length, out),
        _ => 0,
    }
}

// Where standard error takes nothing either, there is no one to tell.
fn say(errors: &mut impl Write, line: &[u8]) {
    let _ = errors.write_all(line);
}
