// What is shown for a place of an input: why its byte was thrown out, in a sentence, and the bytes around
// it.
//
// The call writes at the start of out and answers how many bytes it wrote. Where out is too short for any
// such text, for a place that the input does not have, and for a reason that it cannot have, out stays
// as it is and the answer is 0.
#![tactic(auto)]

pub(crate) mod window;

ghost use Rattle.std.specs.Prelude.{◌≡◌};
ghost use Rattle.text.specs.Put.{gave};
ghost use Rattle.explained.specs.Shown.{shown_of, no_place};

use sentences::no_reason;
use sentences::sentence::sentence;
use text::Writer;
use why::{MOST, Reason};

// Room for all that is shown for a place.
pub const SHOWN: usize = 512;

// The reason of a place in a sentence, and the bytes around the place and wherever else the test at it
// looked.
pub fn shown(input: &[u8], place: usize, reason: Reason, out: &mut [u8]) -> usize
    ensures { gave result out.new ≡ shown_of input.now place reason out.old }
{
    if out.len() < SHOWN {
        return 0;
    }
    if no_place(input, place, reason) {
        return 0;
    }
    let at = sentence(input, place, reason, out, 0);
    let mut writer = Writer { out, at };
    window::windows(&mut writer, input, place, reason);
    writer.at
}

pub(crate) fn no_place(input: &[u8], place: usize, reason: Reason) -> bool
    ensures { result ≡ no_place input.now place reason }
{
    MOST < input.len() || input.len() <= place || no_reason(place, reason)
}
