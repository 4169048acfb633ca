// The reason of a place, as C and Rust see it: with the answer and what the reason carries as one number.
//
// It is a library of its own beside `hpsdr`, of which an object of its own is made, so that neither changes how the
// other is compiled.
#![tactic(auto)]

ghost use Rattle.std.specs.Prelude.{◌≡◌, ◌<◌, ◌≤◌};
ghost use Rattle.wire.specs.Answers.{Accepted};
ghost use Rattle.hpsdr_why.specs.Why.{number_and_carried, carried_by, returned_of, why_byte_of};

use why::Reason;
use wire::tell;

#[unsafe(no_mangle)]
pub extern "C" fn hpsdr_why_byte(input: &[u8], place: usize) -> u64
    ensures { result ≡ why_byte_of input.now place }
{
    match why::explain(input, place) {
        Ok(reason) => returned(reason),
        Err(refusal) => tell(Err(refusal)) as u64,
    }
}

// The reason's number in bits 15 to 8, what it carries in bits 63 to 32, and the answer, which is 0, in bits 7 to 0.
pub(crate) fn returned(reason: Reason) -> u64
    requires { carried_by reason < 65536 }
    ensures { result ≡ returned_of (record { answer = Accepted; reason = reason }) }
{
    let (number, carried) = number_and_carried(reason);
    256 * number + 0x1_0000_0000 * carried
}

// A reason's number, which is C's, and the frame's start or the sync's byte.
pub(crate) fn number_and_carried(reason: Reason) -> (u64, u64)
    ensures { (result ≡ number_and_carried reason) × (result.0 ≤ 4) }
{
    match reason {
        Reason::NotGiven => (0, 0),
        Reason::Inside(start) => (1, start as u64),
        Reason::Near(byte) => (2, byte as u64),
        Reason::Far(byte) => (3, byte as u64),
        Reason::Held => (4, 0),
    }
}
