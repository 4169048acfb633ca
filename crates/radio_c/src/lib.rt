// The update of a lent status record, as C links it: `radio::export::radio_update` under its own name, in an archive.
//
// `radio` itself is a library of the language, on which others stand, and a crate is one or the other.
#![tactic(auto)]

ghost use Rattle.std.specs.Prelude.{◌≡◌};
ghost use Rattle.radio.specs.Read.{read_of};
ghost use Rattle.radio.specs.Export.{numbered, shown};

use radio_status::record::Status;

#[unsafe(no_mangle)]
pub extern "C" fn radio_update(
    frame: &[u8],
    receivers: usize,
    iq: &mut [i32],
    mic: &mut [i16],
    status: &mut Status,
) -> u32
    ensures { shown result status.new iq.new mic.new ≡ numbered (read_of frame.now receivers iq.old mic.old status.old) }
{
    radio::export::radio_update(frame, receivers, iq, mic, status)
}
