// Frames from the host.
ghost use Rattle.std.specs.Prelude.{◌≡◌, [], ◌∷◌, ◌++◌};
ghost use Rattle.host_record.specs.Record.{fresh};
ghost use Rattle.cells.specs.Cells.{wrote, offered};
ghost use Rattle.host_cells.specs.Host.{host_cells};
ghost use Rattle.host_door.specs.HostCalls.{gave, built, host_read_of, host_build_of};

use cells::returned;
use host_door::{build, builder_fresh, host_fresh, host_read};
use wire::number;

#[unsafe(no_mangle)]
pub extern "C" fn hpsdr_host_read(frame: &[u8], audio: &mut [i16], host: &mut [u32]) -> u32
    ensures { gave result host.new audio.new ≡ host_read_of frame.now audio.old host.old }
{
    returned(host_read(frame, audio, host))
}

#[unsafe(no_mangle)]
pub extern "C" fn hpsdr_build(builder: &mut [u32], audio: &[i16], frame: &mut [u8]) -> u32
    ensures { built result builder.new frame.new ≡ host_build_of builder.old audio.now frame.old }
{
    u32::from(number(build(builder, audio, frame)))
}

#[unsafe(no_mangle)]
pub extern "C" fn hpsdr_host_fresh(host: &mut [u32]) -> u32
    ensures { wrote result host.new ≡ offered (host_cells fresh) host.old }
{
    u32::from(number(host_fresh(host)))
}

#[unsafe(no_mangle)]
pub extern "C" fn hpsdr_builder_fresh(builder: &mut [u32]) -> u32
    ensures { wrote result builder.new ≡ offered (host_cells fresh ++ (0 ∷ [])) builder.old }
{
    u32::from(number(builder_fresh(builder)))
}
