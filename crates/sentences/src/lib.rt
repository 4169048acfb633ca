// What is said about an input in words: why a byte of it was thrown out, in a sentence, and what became
// of its bytes, a line for each run of them.
//
// A line is written at the start of out, and the answer is how many bytes were written. Where out is too
// short for any such line, for a run that the input does not have, and for a reason that its first place
// cannot have, out stays as it is and the answer is 0. A sentence and the parts of one are put from a place on, as `text` puts its own.
#![tactic(auto)]

pub mod parts;
pub(crate) mod runs;
pub mod sentence;

ghost use Rattle.std.specs.Prelude.{◌≡◌};
ghost use Rattle.text.specs.Put.{gave};
ghost use Rattle.sentences.specs.Sentence.{no_reason};
ghost use Rattle.sentences.specs.Run.{run_line_of, no_run, past_end_of};

use text::Writer;
use why::{MOST, Reason, Run};

// Room for any line about a run, and for the line about a place past the end.
pub const LINE: usize = 128;

// The line about the run of bytes from a place on.
pub fn run_line(input: &[u8], start: usize, run: Run, out: &mut [u8]) -> usize
    ensures { gave result out.new ≡ run_line_of input.now start run out.old }
{
    if out.len() < LINE {
        return 0;
    }
    if no_run(input, start, run) {
        return 0;
    }
    let mut writer = Writer { out, at: 0 };
    runs::run(&mut writer, input, start, run);
    writer.at
}

// The line for a place that an input of this length does not have.
pub fn past_end(length: usize, out: &mut [u8]) -> usize
    ensures { gave result out.new ≡ past_end_of length out.old }
{
    if out.len() < LINE {
        return 0;
    }
    let mut writer = Writer { out, at: 0 };
    writer.put(b"why: the place is past the end of the input, which has ");
    parts::counted(&mut writer, length, b" byte\n", b" bytes\n");
    writer.at
}

pub(crate) fn no_run(input: &[u8], start: usize, run: Run) -> bool
    ensures { result ≡ no_run input.now start run.end run.reason }
{
    MOST < input.len() || input.len() < run.end || run.end <= start || no_reason(start, run.reason)
}

// Whether no place like this one can have the reason: none is given, the frame begins after it, or the
// byte is none of the three of a sync.
pub fn no_reason(place: usize, reason: Reason) -> bool
    ensures { result ≡ no_reason place reason }
{
    match reason {
        Reason::NotGiven => true,
        Reason::Inside(q) => place < q,
        Reason::Near(k) | Reason::Far(k) => 2 < k,
        Reason::Held => false,
    }
}
