// The host record as 62 cells, in the order of its fields.
#![tactic(auto)]

ghost use Rattle.std.specs.Prelude.{◌≡◌};
ghost use Rattle.host_record.specs.Choices.{jack_code};
ghost use Rattle.host_cells.specs.Host.{codes_of, word0_cells, tuned_cells, word9_cells, word10_cells, host_cells};

use host_record::record::{Controls, Front, HighPass, Host, LowPass};

// The number of its cells, and so the place of a builder's turn after them.
pub const HOST: usize = 62;

// Word 0's cells, the frequencies' and the drive's, word 9's, word 10's. Each is its field by `as`, flags and numbers alike, so that
// the lists read as C's record does. In line the cells of a fresh record are constants, which are stored where they are lent.
#[inline(always)]
pub fn host_cells(host: Host) -> [u32; HOST]
    ensures { result ≡ host_cells host }
{
    let mut cells = [0u32; HOST];
    cells[..19].copy_from_slice(&word0_cells(host));
    cells[19..28].copy_from_slice(&tuned_cells(host));
    cells[28..51].copy_from_slice(&word9_cells(host.controls, host.highpass, host.lowpass));
    cells[51..].copy_from_slice(&word10_cells(host.front));
    cells
}

pub(crate) fn word0_cells(host: Host) -> [u32; 19]
    ensures { result ≡ word0_cells host (codes_of host) host.outputs host.receivers }
{
    [
        host.mox as u32,
        u8::from(host.speed) as u32,
        u8::from(host.source10) as u32,
        u8::from(host.source122) as u32,
        u8::from(host.boards) as u32,
        u8::from(host.microphone) as u32,
        host.classe as u32,
        host.outputs as u32,
        u8::from(host.attenuator) as u32,
        host.preamp as u32,
        host.dither as u32,
        host.random as u32,
        u8::from(host.antenna) as u32,
        host.rxout as u32,
        u8::from(host.relay) as u32,
        host.duplex as u32,
        host.receivers as u32,
        host.timestamp as u32,
        host.common as u32,
    ]
}

// The frequencies, and the drive after them.
pub(crate) fn tuned_cells(host: Host) -> [u32; 9]
    ensures { result ≡ tuned_cells host }
{
    let [hz1, hz2, hz3, hz4, hz5, hz6, hz7] = host.frequencies;
    [
        host.transmitter,
        hz1,
        hz2,
        hz3,
        hz4,
        hz5,
        hz6,
        hz7,
        host.drive as u32,
    ]
}

pub(crate) fn word9_cells(controls: Controls, highpass: HighPass, lowpass: LowPass) -> [u32; 23]
    ensures { result ≡ word9_cells controls highpass lowpass }
{
    [
        controls.boost as u32,
        controls.linein as u32,
        controls.filter as u32,
        controls.tuner as u32,
        controls.tune as u32,
        controls.board as u32,
        controls.manual as u32,
        controls.vna as u32,
        highpass.mhz13 as u32,
        highpass.mhz20 as u32,
        highpass.mhz9 as u32,
        highpass.mhz6 as u32,
        highpass.mhz1 as u32,
        highpass.bypass as u32,
        highpass.amplifier as u32,
        highpass.trdisabled as u32,
        lowpass.m30 as u32,
        lowpass.m60 as u32,
        lowpass.m80 as u32,
        lowpass.m160 as u32,
        lowpass.m6 as u32,
        lowpass.m12 as u32,
        lowpass.m17 as u32,
    ]
}

pub(crate) fn word10_cells(front: Front) -> [u32; 11]
    ensures { result ≡ word10_cells front (jack_code front.jack) }
{
    [
        front.preamp1 as u32,
        front.preamp2 as u32,
        front.preamp3 as u32,
        front.preamp4 as u32,
        u8::from(front.jack) as u32,
        front.bias as u32,
        front.pttdisabled as u32,
        front.gain as u32,
        front.c2top as u32,
        front.c3 as u32,
        front.c4 as u32,
    ]
}
