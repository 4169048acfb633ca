// The host record that 62 cells are, and the builder that those and its turn are.
//
// No public function here has a `requires`: too few cells give a fresh record.
#![tactic(auto)]

mod choices;
mod parts;

ghost use Rattle.std.specs.Prelude.{◌≡◌, ◌≤◌, take};
ghost use Rattle.cells.specs.Cells.{within};
ghost use Rattle.host_from_cells.specs.FromCells.{builder_most, host_most, host_of, host_in, builder_in};

use crate::choices::{relay_of, source10_of};
use crate::parts::{byte, controls_of, front_of, highpass_of, lowpass_of};
use cells::within;
use host::Builder;
use host_cells::HOST;
use host_record::choices::{Antenna, Attenuator, Boards, Microphone, Source122, Speed};
use host_record::record::Host;

// The number of a builder's cells: a host record's, and its turn's.
const BUILDER: usize = HOST + 1;

// The cells before word 9's: MOX, word 0's and the frequencies.
const BEFORE_9: usize = 27;

// The most that each cell can hold, before word 9's and from there on, the turn's last. One table for all would not be folded
// into the tests, but be laid on the stack in part at each call.
const MOST_BEFORE_9: [u32; BEFORE_9] = [
    1, 3, 2, 1, 3, 1, 1, 255, 3, 1, 1, 1, 3, 1, 2, 1, 255, 1, 1, 4294967295, 4294967295,
    4294967295, 4294967295, 4294967295, 4294967295, 4294967295, 4294967295,
];

const MOST_FROM_9: [u32; BUILDER - BEFORE_9] = [
    255, 1, 1, 1, 1, 1, 1, 1, 1, 1, 1, 1, 1, 1, 1, 1, 1, 1, 1, 1, 1, 1, 1, 1, 1, 1, 1, 1, 1, 1, 1,
    255, 255, 255, 255, 255,
];

// Whether the cells can be a host record's.
pub fn is_host(cells: &[u32]) -> bool
    ensures { result ≡ within host_most cells.now }
{
    fit::<HOST>(cells)
}

// Whether the cells can be a builder's.
pub fn is_builder(cells: &[u32]) -> bool
    ensures { result ≡ within builder_most cells.now }
{
    fit::<BUILDER>(cells)
}

// Whether the cells can be a record's of so many, a builder's or its first ones. The count is a constant, so that the table of
// each is folded into its tests.
pub(crate) fn fit<const COUNT: usize>(cells: &[u32]) -> bool
    requires from_9 { BEFORE_9 ≤ COUNT }
    requires most { COUNT ≤ BUILDER }
    ensures { result ≡ within (take COUNT builder_most) cells.now }
{
    within(&MOST_BEFORE_9, cells) && within(&MOST_FROM_9[..COUNT - BEFORE_9], &cells[BEFORE_9..])
}

// The record that the cells are; too few of them give a fresh one.
pub fn host_in(cells: &[u32]) -> Host
    ensures { result ≡ host_in cells.now }
{
    match cells.first_chunk() {
        Some(cells) => host_of(cells),
        None => Host::fresh(),
    }
}

pub(crate) fn host_of(cells: &[u32; HOST]) -> Host
    ensures { result ≡ host_of cells.now }
{
    Host {
        mox: cells[0] == 1,
        speed: Speed::from(byte(cells[1])),
        source10: source10_of(cells[2]),
        source122: Source122::from(byte(cells[3])),
        boards: Boards::from(byte(cells[4])),
        microphone: Microphone::from(byte(cells[5])),
        classe: cells[6] == 1,
        outputs: byte(cells[7]),
        attenuator: Attenuator::from(byte(cells[8])),
        preamp: cells[9] == 1,
        dither: cells[10] == 1,
        random: cells[11] == 1,
        antenna: Antenna::from(byte(cells[12])),
        rxout: cells[13] == 1,
        relay: relay_of(cells[14]),
        duplex: cells[15] == 1,
        receivers: byte(cells[16]),
        timestamp: cells[17] == 1,
        common: cells[18] == 1,
        transmitter: cells[19],
        frequencies: [
            cells[20], cells[21], cells[22], cells[23], cells[24], cells[25], cells[26],
        ],
        drive: byte(cells[27]),
        controls: controls_of(cells),
        highpass: highpass_of(cells),
        lowpass: lowpass_of(cells),
        front: front_of(cells),
    }
}

// The builder that the cells are; too few of them give a fresh one.
pub fn builder_in(cells: &[u32]) -> Builder
    ensures { result ≡ builder_in cells.now }
{
    match cells.get(HOST) {
        Some(turn) => Builder {
            host: host_in(cells),
            turn: byte(*turn),
        },
        None => Builder::fresh(),
    }
}
