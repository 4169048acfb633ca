// Runs: frames that are handed out one after another, bytes that are skipped one after another, and what is held.
ghost use Rattle.std.specs.Prelude.{◌≡◌, ◌+◌, ◌≤◌, length};
ghost use Rattle.why.specs.Runs.{going_of, run_of, step_by, run_end};

use crate::Reason;
use crate::place::{good_at, skipped};

#[derive(Clone, Copy)]
pub struct Run {
    // of the run's first place
    pub reason: Reason,
    // the place behind its last
    pub end: usize,
}

// The run that begins at a place to which the reading comes, of an input of any length. From the first, at 0, each goes
// on where the one before it ends, so that all of them together follow the reading once. Of any other place it tells
// where the same test at it first goes another way; where fewer than 515 bytes remain, `end` is the input's length.
pub fn run_from(input: &[u8], start: usize) -> Run
    ensures { result ≡ run_of input.now start }
{
    let length = input.len();
    if length.saturating_sub(start) < 515 {
        return Run {
            reason: Reason::Held,
            end: length,
        };
    }
    going(input, start)
}

// Frames or skipped bytes.
pub(crate) fn going(input: &[u8], start: usize) -> Run
    requires { start + 515 ≤ length input.now }
    ensures { result ≡ going_of input.now start }
{
    let begins = good_at(input, start);
    Run {
        reason: if begins {
            Reason::Inside(start)
        } else {
            skipped(input, start)
        },
        end: run_end(input, start, begins),
    }
}

// As long as the test goes the same way, step by step.
pub(crate) fn run_end(input: &[u8], start: usize, begins: bool) -> usize
    requires { start + 515 ≤ length input.now }
    ensures { result ≡ run_end input.now begins start }
{
    let step = step_by(begins);
    let mut place = start;
    // The run ends behind its last step: a range by `step_by` would need that place kept beside its own.
    while 515 <= input.len() - place {
        if good_at(input, place) != begins {
            return place;
        }
        place += step;
    }
    place
}

// "go on 512; otherwise skip one byte"
pub(crate) fn step_by(begins: bool) -> usize
    ensures { result ≡ step_by begins }
{
    if begins { 512 } else { 1 }
}
