// The parts of words 9 and 10 from their cells.
ghost use Rattle.std.specs.Prelude.{◌≡◌, ◌%◌, ◌^◌};
ghost use Rattle.host_record.specs.Choices.{jack_of};
ghost use Rattle.cells.specs.Cells.{number};
ghost use Rattle.host_from_cells.specs.FromCells.{controls_of, highpass_of, lowpass_of, front_of};

use host_cells::HOST;
use host_record::choices::Jack;
use host_record::record::{Controls, Front, HighPass, LowPass};

// A number of eight bits; the cells have been tested, so that it is the cell's.
pub(crate) fn byte(cell: u32) -> u8
    ensures { result ≡ cell % 2 ^ 8 }
{
    (cell % 256) as u8
}

pub(crate) fn controls_of(cells: &[u32; HOST]) -> Controls
    ensures { result ≡ controls_of cells.now }
{
    Controls {
        boost: cells[28] == 1,
        linein: cells[29] == 1,
        filter: cells[30] == 1,
        tuner: cells[31] == 1,
        tune: cells[32] == 1,
        board: cells[33] == 1,
        manual: cells[34] == 1,
        vna: cells[35] == 1,
    }
}

pub(crate) fn highpass_of(cells: &[u32; HOST]) -> HighPass
    ensures { result ≡ highpass_of cells.now }
{
    HighPass {
        mhz13: cells[36] == 1,
        mhz20: cells[37] == 1,
        mhz9: cells[38] == 1,
        mhz6: cells[39] == 1,
        mhz1: cells[40] == 1,
        bypass: cells[41] == 1,
        amplifier: cells[42] == 1,
        trdisabled: cells[43] == 1,
    }
}

pub(crate) fn lowpass_of(cells: &[u32; HOST]) -> LowPass
    ensures { result ≡ lowpass_of cells.now }
{
    LowPass {
        m30: cells[44] == 1,
        m60: cells[45] == 1,
        m80: cells[46] == 1,
        m160: cells[47] == 1,
        m6: cells[48] == 1,
        m12: cells[49] == 1,
        m17: cells[50] == 1,
    }
}

pub(crate) fn front_of(cells: &[u32; HOST]) -> Front
    ensures { result ≡ front_of cells.now (jack_of (number 8 cells.now 55)) }
{
    Front {
        preamp1: cells[51] == 1,
        preamp2: cells[52] == 1,
        preamp3: cells[53] == 1,
        preamp4: cells[54] == 1,
        jack: Jack::from(byte(cells[55])),
        bias: cells[56] == 1,
        pttdisabled: cells[57] == 1,
        gain: byte(cells[58]),
        c2top: byte(cells[59]),
        c3: byte(cells[60]),
        c4: byte(cells[61]),
    }
}
