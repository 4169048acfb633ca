// The status record: what the radio's words have told so far.
ghost use Rattle.std.specs.Prelude.{◌≡◌};
ghost use Rattle.radio_status.specs.Record.{fresh_status};

// Whether each converter has been driven past its range. ADC 1 is told by words 0 and 4.
#[repr(C)]
#[derive(Clone, Copy)]
pub struct Overflow {
    pub adc1: bool,
    pub adc2: bool,
    pub adc3: bool,
    pub adc4: bool,
}

// Word 0, but for the overflow. An input is active when its bit is 0.
#[repr(C)]
#[derive(Clone, Copy)]
pub struct Inputs {
    pub io1: bool,
    pub io2: bool,
    pub io3: bool,
    pub io4: bool,
    pub pll: bool,
    pub toggle: bool,
    pub mercury: u8,
    pub penelope: u8,
    pub main: u8,
}

// Word 1: forward power.
#[repr(C)]
#[derive(Clone, Copy)]
pub struct ForwardLevels {
    pub ain5: u16,
    pub ain1: u16,
}

// Word 2: reverse power, and AIN3.
#[repr(C)]
#[derive(Clone, Copy)]
pub struct ReverseLevels {
    pub ain2: u16,
    pub ain3: u16,
}

// Word 3: AIN4, and AIN6, which is the supply on Hermes.
#[repr(C)]
#[derive(Clone, Copy)]
pub struct SupplyLevels {
    pub ain4: u16,
    pub ain6: u16,
}

// Word 4, but for the overflows: the software versions of boards 1 to 4, 0 to 127. No invariant says so, nor one of the
// levels that they are up to 4,095: C lends any record, and a write refuses it.
#[repr(C)]
#[derive(Clone, Copy)]
pub struct Versions {
    pub board1: u8,
    pub board2: u8,
    pub board3: u8,
    pub board4: u8,
}

#[repr(C)]
#[derive(Clone, Copy)]
pub struct Status {
    pub dot: bool,
    pub dash: bool,
    pub ptt: bool,
    pub overflow: Overflow,
    pub inputs: Inputs,
    pub forward: ForwardLevels,
    pub reverse: ReverseLevels,
    pub supply: SupplyLevels,
    pub versions: Versions,
}

impl Status {
    // What all-zero words give: everything is off or 0, but the four inputs are active, so that it is no derived default.
    pub fn fresh() -> Self
        ensures { result ≡ fresh_status }
    {
        Status {
            dot: false,
            dash: false,
            ptt: false,
            overflow: Overflow {
                adc1: false,
                adc2: false,
                adc3: false,
                adc4: false,
            },
            inputs: Inputs {
                io1: true,
                io2: true,
                io3: true,
                io4: true,
                pll: false,
                toggle: false,
                mercury: 0,
                penelope: 0,
                main: 0,
            },
            forward: ForwardLevels { ain5: 0, ain1: 0 },
            reverse: ReverseLevels { ain2: 0, ain3: 0 },
            supply: SupplyLevels { ain4: 0, ain6: 0 },
            versions: Versions {
                board1: 0,
                board2: 0,
                board3: 0,
                board4: 0,
            },
        }
    }
}
