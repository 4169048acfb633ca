// The choices of which a code is unassigned, by the codes that their cells hold.
ghost use Rattle.std.specs.Prelude.{◌≡◌};
ghost use Rattle.host_from_cells.specs.FromCells.{source10_of, relay_of};

use host_record::choices::{Relay, Source10};

// The cells have been tested, so that no code is past its last. One function for each type: a generic one's contract would have
// to speak of the type's own conversion, and would be longer than both.
pub(crate) fn source10_of(code: u32) -> Source10
    ensures { result ≡ source10_of code }
{
    Source10::try_from(code.min(255) as u8).unwrap_or(Source10::Mercury)
}

pub(crate) fn relay_of(code: u32) -> Relay
    ensures { result ≡ relay_of code }
{
    Relay::try_from(code.min(255) as u8).unwrap_or(Relay::Tx3)
}
