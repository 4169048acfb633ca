// The host record: every field of words 0 to 10.
ghost use Rattle.std.specs.Prelude.{◌≡◌};
ghost use Rattle.host_record.specs.Record.{fresh};

use crate::choices::{
    Antenna, Attenuator, Boards, Jack, Microphone, Relay, Source10, Source122, Speed,
};

// Word 9's C2.
#[derive(Clone, Copy, Default)]
pub struct Controls {
    // of the microphone
    pub boost: bool,
    pub linein: bool,
    // Apollo's filter, tuner and auto tune
    pub filter: bool,
    pub tuner: bool,
    pub tune: bool,
    // the filter board, and its filters by hand
    pub board: bool,
    pub manual: bool,
    pub vna: bool,
}

// Word 9's C3: the high-pass filters of 13, 20, 9.5, 6.5 and 1.5 MHz, and three switches beside them.
#[derive(Clone, Copy, Default)]
pub struct HighPass {
    pub mhz13: bool,
    pub mhz20: bool,
    pub mhz9: bool,
    pub mhz6: bool,
    pub mhz1: bool,
    pub bypass: bool,
    // for 6 m
    pub amplifier: bool,
    // the transmit and receive relay
    pub trdisabled: bool,
}

// Word 9's C4: the low-pass filters of 30/20, 60/40, 80, 160, 6, 12/10 and 17/15 m.
#[derive(Clone, Copy, Default)]
pub struct LowPass {
    pub m30: bool,
    pub m60: bool,
    pub m80: bool,
    pub m160: bool,
    pub m6: bool,
    pub m12: bool,
    pub m17: bool,
}

// Word 10: what stands before the receivers and the microphone.
#[derive(Clone, Copy, Default)]
pub struct Front {
    // of receivers 1 to 4; word 0's preamp is another
    pub preamp1: bool,
    pub preamp2: bool,
    pub preamp3: bool,
    pub preamp4: bool,
    pub jack: Jack,
    // of the microphone
    pub bias: bool,
    pub pttdisabled: bool,
    // of line-in, 0 to 31
    pub gain: u8,
    // plain numbers: C2's top three bits (0 to 7), C3 and C4
    pub c2top: u8,
    pub c3: u8,
    pub c4: u8,
}

// No invariant holds its numbers, or those of `Front`, to their ranges: C lends any record, and a build refuses it.
#[derive(Clone, Copy)]
pub struct Host {
    pub mox: bool,
    // word 0
    pub speed: Speed,
    pub source10: Source10,
    pub source122: Source122,
    pub boards: Boards,
    pub microphone: Microphone,
    pub classe: bool,
    // open collector outputs, 0 to 127
    pub outputs: u8,
    pub attenuator: Attenuator,
    pub preamp: bool,
    pub dither: bool,
    pub random: bool,
    pub antenna: Antenna,
    pub rxout: bool,
    pub relay: Relay,
    pub duplex: bool,
    // 1 to 8; a word has it less one
    pub receivers: u8,
    pub timestamp: bool,
    // one frequency for all boards
    pub common: bool,
    // word 1, in Hz
    pub transmitter: u32,
    // words 2 to 8: receivers 1 to 7, in Hz
    pub frequencies: [u32; 7],
    // word 9
    pub drive: u8,
    pub controls: Controls,
    pub highpass: HighPass,
    pub lowpass: LowPass,
    // word 10
    pub front: Front,
}

impl Host {
    // What all-zero words give. Not a `Default`: that would have no receiver, which no word says.
    pub fn fresh() -> Host
        ensures { result ≡ fresh }
    {
        Host {
            mox: false,
            speed: Speed::Khz48,
            source10: Source10::AtlasOrExcalibur,
            source122: Source122::Penelope,
            boards: Boards::Neither,
            microphone: Microphone::Janus,
            classe: false,
            outputs: 0,
            attenuator: Attenuator::Db0,
            preamp: false,
            dither: false,
            random: false,
            antenna: Antenna::Unused,
            rxout: false,
            relay: Relay::Tx1,
            duplex: false,
            receivers: 1,
            timestamp: false,
            common: false,
            transmitter: 0,
            frequencies: [0; 7],
            drive: 0,
            controls: Controls::default(),
            highpass: HighPass::default(),
            lowpass: LowPass::default(),
            front: Front::default(),
        }
    }
}
