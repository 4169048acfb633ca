// Why a byte of an input was thrown out: the reason of a place, by the reading from place 0.
//
// Of each place of an input exactly one reason is true. `specs/Reasons.antt` says when each of them is.
#![tactic(auto)]

mod place;
mod runs;

ghost use Rattle.std.specs.Prelude.{◌≡◌, ◌<◌, ◌≤◌, length};
ghost use Rattle.why.specs.Why.{gave, why_of, reason_of};

use place::{good_at, skipped};
pub use runs::{Run, run_from};
use wire::Refusal;

// No input is longer.
pub const MOST: usize = 65536;

#[derive(Clone, Copy)]
pub enum Reason {
    // None, as beside a refusal. No call of this crate gives it; it stays, since what writes a reason in words or as a
    // number promises what it does with none.
    NotGiven,
    // inside the frame handed out that begins at this place
    Inside(usize),
    // skipped: of the sync at the place, this byte is the first that is not 7F
    Near(u8),
    // skipped: sync stands at the place, and of the one 512 bytes later this byte is the first that is not 7F
    Far(u8),
    // still held
    Held,
}

// The reason of a place of an input of up to 65,536 bytes. The reading is followed once, as far as the place.
pub fn explain(input: &[u8], place: usize) -> Result<Reason, Refusal>
    ensures { gave result ≡ why_of input.now place }
{
    let length = input.len();
    if MOST < length {
        return Err(Refusal::Length);
    }
    if length <= place {
        return Err(Refusal::Range);
    }
    Ok(followed(input, place))
}

// "While at least 515 bytes remain: at a good frame hand out its 512 bytes and go on 512; otherwise skip one byte",
// until that comes to the place asked for, or goes past it.
pub(crate) fn followed(input: &[u8], asked: usize) -> Reason
    requires { (asked < length input.now) × (length input.now ≤ 65536) }
    ensures { result ≡ reason_of input.now asked }
{
    let length = input.len();
    let mut place = 0;
    // A step is of 512 bytes or of one, as the rule has it: no iterator's step is either of two.
    while 515 <= length - place {
        if good_at(input, place) {
            if asked < place + 512 {
                return Reason::Inside(place);
            }
            place += 512;
        } else {
            if asked == place {
                return skipped(input, place);
            }
            place += 1;
        }
    }
    Reason::Held
}
