// The status record as 26 cells, in the order of its fields.
//
// What is public here serves the calls of other rooms, and has no `requires`: cells that can be no record are refused, or
// give a fresh one.
ghost use Rattle.std.specs.Prelude.{◌≡◌};
ghost use Rattle.radio_door.specs.Status.{status_of, status_from, status_in, status_cells};

use cells::within;
use radio_status::record::{
    ForwardLevels, Inputs, Overflow, ReverseLevels, Status, SupplyLevels, Versions,
};
use wire::Refusal;

// The most that each cell can hold.
pub const MOST: [u32; 26] = [
    1, 1, 1, 1, 1, 1, 1, 1, 1, 1, 1, 1, 1, 255, 255, 255, 65535, 65535, 65535, 65535, 65535, 65535,
    255, 255, 255, 255,
];

// The record that the cells are, or BAD_STATE where they can be none. In line no record is laid in memory, and none is
// made for a frame that is refused.
#[inline(always)]
#[tactic(auto, using(crate::proofs::StatusCases::from_bad, crate::proofs::StatusCases::from_good))]
pub fn status_from(cells: &[u32]) -> Result<Status, Refusal>
    ensures { result ≡ status_from cells.now }
{
    if !within(&MOST, cells) {
        return Err(Refusal::BadState);
    }
    Ok(status_in(cells))
}

// The record that the cells are; too few of them give a fresh one.
#[inline(always)]
#[tactic(auto, using(crate::proofs::StatusCases::status_few, crate::proofs::StatusCases::status_first))]
pub fn status_in(cells: &[u32]) -> Status
    ensures { result ≡ status_in cells.now }
{
    let Some(cells) = cells.first_chunk::<26>() else {
        return Status::fresh();
    };
    status_of(cells)
}

pub(crate) fn status_of(cells: &[u32; 26]) -> Status
    ensures { result ≡ status_of cells.now }
{
    let overflow = overflow_of(cells);
    let inputs = inputs_of(cells);
    let forward = forward_of(cells);
    let reverse = reverse_of(cells);
    let supply = supply_of(cells);
    let versions = versions_of(cells);
    Status {
        dot: cells[0] == 1,
        dash: cells[1] == 1,
        ptt: cells[2] == 1,
        overflow,
        inputs,
        forward,
        reverse,
        supply,
        versions,
    }
}

pub(crate) fn overflow_of(cells: &[u32; 26]) -> Overflow
    ensures { result ≡ (status_of cells.now).overflow }
{
    Overflow {
        adc1: cells[3] == 1,
        adc2: cells[4] == 1,
        adc3: cells[5] == 1,
        adc4: cells[6] == 1,
    }
}

pub(crate) fn inputs_of(cells: &[u32; 26]) -> Inputs
    ensures { result ≡ (status_of cells.now).inputs }
{
    Inputs {
        io1: cells[7] == 1,
        io2: cells[8] == 1,
        io3: cells[9] == 1,
        io4: cells[10] == 1,
        pll: cells[11] == 1,
        toggle: cells[12] == 1,
        mercury: (cells[13] % 256) as u8,
        penelope: (cells[14] % 256) as u8,
        main: (cells[15] % 256) as u8,
    }
}

pub(crate) fn forward_of(cells: &[u32; 26]) -> ForwardLevels
    ensures { result ≡ (status_of cells.now).forward }
{
    ForwardLevels {
        ain5: (cells[16] % 65536) as u16,
        ain1: (cells[17] % 65536) as u16,
    }
}

pub(crate) fn reverse_of(cells: &[u32; 26]) -> ReverseLevels
    ensures { result ≡ (status_of cells.now).reverse }
{
    ReverseLevels {
        ain2: (cells[18] % 65536) as u16,
        ain3: (cells[19] % 65536) as u16,
    }
}

pub(crate) fn supply_of(cells: &[u32; 26]) -> SupplyLevels
    ensures { result ≡ (status_of cells.now).supply }
{
    SupplyLevels {
        ain4: (cells[20] % 65536) as u16,
        ain6: (cells[21] % 65536) as u16,
    }
}

pub(crate) fn versions_of(cells: &[u32; 26]) -> Versions
    ensures { result ≡ (status_of cells.now).versions }
{
    Versions {
        board1: (cells[22] % 256) as u8,
        board2: (cells[23] % 256) as u8,
        board3: (cells[24] % 256) as u8,
        board4: (cells[25] % 256) as u8,
    }
}

pub fn status_cells(s: Status) -> [u32; 26]
    ensures { result ≡ status_cells s }
{
    let overflow = s.overflow;
    let inputs = s.inputs;
    let forward = s.forward;
    let reverse = s.reverse;
    let supply = s.supply;
    let versions = s.versions;
    [
        s.dot as u32,
        s.dash as u32,
        s.ptt as u32,
        overflow.adc1 as u32,
        overflow.adc2 as u32,
        overflow.adc3 as u32,
        overflow.adc4 as u32,
        inputs.io1 as u32,
        inputs.io2 as u32,
        inputs.io3 as u32,
        inputs.io4 as u32,
        inputs.pll as u32,
        inputs.toggle as u32,
        inputs.mercury as u32,
        inputs.penelope as u32,
        inputs.main as u32,
        forward.ain5 as u32,
        forward.ain1 as u32,
        reverse.ain2 as u32,
        reverse.ain3 as u32,
        supply.ain4 as u32,
        supply.ain6 as u32,
        versions.board1 as u32,
        versions.board2 as u32,
        versions.board3 as u32,
        versions.board4 as u32,
    ]
}
