// `update` as C and Rust call it, under a plain name, which the crate `radio_c` gives it in an archive. The record and
// the structs in it are `#[repr(C)]`, so that a caller declares them again.
ghost use Rattle.std.specs.Prelude.{◌≡◌};
ghost use Rattle.radio.specs.Read.{read_of};
ghost use Rattle.radio.specs.Export.{numbered, shown};

use radio_status::record::Status;

// An update that answers by number: 0 to 9 in bits 7 to 0, and the place in bits 31 to 16.
pub fn radio_update(
    frame: &[u8],
    receivers: usize,
    iq: &mut [i32],
    mic: &mut [i16],
    status: &mut Status,
) -> u32
    ensures { shown result status.new iq.new mic.new ≡ numbered (read_of frame.now receivers iq.old mic.old status.old) }
{
    wire::tell(crate::update(frame, receivers, iq, mic, status).map(|_| ()))
}
