// What stands at a place that the reading comes to.
ghost use Rattle.std.specs.Prelude.{◌≡◌, ◌+◌, ◌≤◌, length};
ghost use Rattle.reading.specs.Reading.{good};
ghost use Rattle.why.specs.Why.{skipped_for, wrong_byte};

use crate::Reason;
use wire::places::first_other;
use wire::sync::sync_at;

// "A place begins a good frame if sync stands there and again 512 bytes later"
// The plain reader has the same test of its own: each reader leans on the rule alone, and on no other reader.
pub(crate) fn good_at(input: &[u8], place: usize) -> bool
    requires { place + 515 ≤ length input.now }
    ensures { result ≡ good input.now place }
{
    sync_at(input, place) && sync_at(input, place + 512)
}

// Which sync is wrong at a place that begins no good frame, and its first wrong byte.
pub(crate) fn skipped(input: &[u8], place: usize) -> Reason
    requires { place + 515 ≤ length input.now }
    ensures { result ≡ skipped_for input.now place }
{
    if sync_at(input, place) {
        return Reason::Far(wrong_byte(input, place + 512));
    }
    Reason::Near(wrong_byte(input, place))
}

// The first of a sync's three bytes that is not 7F.
pub(crate) fn wrong_byte(input: &[u8], place: usize) -> u8
    requires { place + 3 ≤ length input.now }
    ensures { result ≡ wrong_byte input.now place }
{
    first_other(&input[place..place + 3], 0x7f) as u8
}
