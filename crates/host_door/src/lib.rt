// Frames from the host, on numbers and lent slices: the host record and the builder cross as cells.
#![tactic(auto)]

ghost use Rattle.std.specs.Prelude.{◌≡◌, [], ◌∷◌, ◌++◌};
ghost use Rattle.wire.specs.Answers.{number_of};
ghost use Rattle.host_record.specs.Record.{fresh};
ghost use Rattle.cells.specs.Cells.{returned_by, wrote, offered};
ghost use Rattle.host_cells.specs.Host.{host_cells};
ghost use Rattle.host_door.specs.HostCalls.{gave, built, host_read_of, host_build_of};

use cells::offer;
use host_cells::{HOST, host_cells};
use host_from_cells::{builder_in, host_in, is_builder, is_host};
use host_record::record::Host;
use wire::copy::put;
use wire::{Answer, Refusal};

// Gives the address. Accepted, the record after the read stands in the cells.
pub fn host_read(frame: &[u8], audio: &mut [i16], host: &mut [u32]) -> Result<u8, Refusal>
    ensures { gave (returned_by result) host.new audio.new ≡ host_read_of frame.now audio.old host.old }
{
    if !is_host(host) {
        return Err(Refusal::BadState);
    }
    let reading = host::read(frame, audio, host_in(host))?;
    put(host, 0, &host_cells(reading.host));
    Ok(reading.address)
}

// Accepted, the next turn stands in its cell: a build changes nothing else of its builder.
pub fn build(builder: &mut [u32], audio: &[i16], frame: &mut [u8]) -> Answer
    ensures { built (number_of result) builder.new frame.new ≡ host_build_of builder.old audio.now frame.old }
{
    if !is_builder(builder) {
        return Err(Refusal::BadState);
    }
    let next = builder_in(builder).build(audio, frame)?;
    builder[HOST] = next.turn as u32;
    Ok(())
}

pub fn host_fresh(host: &mut [u32]) -> Answer
    ensures { wrote (number_of result) host.new ≡ offered (host_cells fresh) host.old }
{
    offer(host, &host_cells(Host::fresh()))
}

pub fn builder_fresh(builder: &mut [u32]) -> Answer
    ensures { wrote (number_of result) builder.new ≡ offered (host_cells fresh ++ (0 ∷ [])) builder.old }
{
    offer(builder, &with_turn(&host_cells(Host::fresh())))
}

// A host record's cells, and turn 0 after them.
pub(crate) fn with_turn(host: &[u32; HOST]) -> [u32; HOST + 1]
    ensures { result ≡ host.now ++ (0 ∷ []) }
{
    let mut cells = [0u32; HOST + 1];
    cells[..HOST].copy_from_slice(host);
    cells
}
