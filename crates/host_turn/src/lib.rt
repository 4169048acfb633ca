// The host's turn of words: the word that is due and its bytes, and the records that can be sent.
//
// `put_head` takes what it is given, and writes nothing that cannot be sent.
#![tactic(auto)]

ghost use Rattle.std.specs.Prelude.{◌≡◌, Err, MatchResult};
ghost use Rattle.wire.specs.Answers.{first};
ghost use Rattle.host_turn.specs.Sent.{InRange, c1_of, c2_of, c3_of, c4_of, settings_bytes, switches_bytes, front_c1, front_c2, front_bytes, said, ranges, begun};

use host_record::record::{Front, Host};
use wire::fields::{eight_flags, flag_of};
use wire::numbers::{Bytes4, bytes_of_u32};
use wire::sync::put_header;
use wire::{Answer, Refusal};

// The last of the listed words, after which the turn is 0 again.
pub const LAST_WORD: u8 = 10;

// RANGE unless every value of the record fits, whichever word is due.
pub fn out_of_range(host: Host) -> Answer
    ensures { result ≡ first (ranges host) }
{
    match host {
        Host {
            outputs: 0..=127,
            receivers: 1..=8,
            front: Front {
                gain: 0..=31,
                c2top: 0..=7,
                ..
            },
            ..
        } => Ok(()),
        _ => Err(Refusal::Range),
    }
}

// Sync and C0 to C4 of the word that is due, over the start of a frame. One with no room for them is left as it
// is, and so is any where the turn is above the last or a value is out of range. The word that is due is a number, since
// document 01 numbers the words.
pub fn put_head(frame: &mut [u8], turn: u8, host: Host)
    ensures { frame.new ≡ begun turn host frame.old }
{
    if LAST_WORD < turn {
        return;
    }
    let Ok(fitting) = Fitting::try_from(host) else {
        return;
    };
    let c0 = flag_of(host.mox) + turn * 2;
    put_header(frame, c0, fitting.word(turn));
}

// A record whose every value fits: `try_from` alone makes one, by the test.
#[derive(Clone, Copy)]
pub(crate) struct Fitting {
    host: Host,
    ghost in_range: { InRange host },
}

impl TryFrom<Host> for Fitting {
    type Error = Refusal;

    ghost try_from_gives = { λ host result. MatchResult result (λ fitting. fitting.host ≡ host) (λ refusal. first (ranges host) ≡ Err refusal) };

    fn try_from(host: Host) -> Result<Fitting, Refusal> {
        out_of_range(host)?;
        Ok(Fitting { host })
    }
}

impl Fitting {
    // C1 to C4 of the word that is due.
    pub(crate) fn word(self, turn: u8) -> Bytes4
        ensures { result ≡ said turn self.host }
    {
        let host = self.host;
        match turn {
            0 => self.settings(),
            1 => bytes_of_u32(host.transmitter),
            2..=8 => bytes_of_u32(host.frequencies[(turn - 2) as usize]),
            9 => switches_of(host),
            _ => self.front(),
        }
    }

    pub(crate) fn settings(self) -> Bytes4
        ensures { result ≡ settings_bytes self.host }
    {
        [c1_of(self.host), self.c2(), c3_of(self.host), self.c4()]
    }

    pub(crate) fn c2(self) -> u8
        ensures { result ≡ c2_of self.host }
    {
        flag_of(self.host.classe) + self.host.outputs * 2
    }

    pub(crate) fn c4(self) -> u8
        ensures { result ≡ c4_of self.host }
    {
        let host = self.host;
        u8::from(host.relay)
            + flag_of(host.duplex) * 4
            + (host.receivers - 1) * 8
            + flag_of(host.timestamp) * 64
            + flag_of(host.common) * 128
    }

    pub(crate) fn front(self) -> Bytes4
        ensures { result ≡ front_bytes self.host.front }
    {
        let front = self.host.front;
        [
            front_c1(front),
            front.gain + front.c2top * 32,
            front.c3,
            front.c4,
        ]
    }
}

pub(crate) fn switches_of(host: Host) -> Bytes4
    ensures { result ≡ switches_bytes host }
{
    let c = host.controls;
    let h = host.highpass;
    let l = host.lowpass;
    [
        host.drive,
        eight_flags(
            c.boost, c.linein, c.filter, c.tuner, c.tune, c.board, c.manual, c.vna,
        ),
        eight_flags(
            h.mhz13,
            h.mhz20,
            h.mhz9,
            h.mhz6,
            h.mhz1,
            h.bypass,
            h.amplifier,
            h.trdisabled,
        ),
        eight_flags(l.m30, l.m60, l.m80, l.m160, l.m6, l.m12, l.m17, false),
    ]
}

pub(crate) fn front_c1(front: Front) -> u8
    ensures { result ≡ front_c1 front }
{
    flag_of(front.preamp1)
        + flag_of(front.preamp2) * 2
        + flag_of(front.preamp3) * 4
        + flag_of(front.preamp4) * 8
        + u8::from(front.jack) * 16
        + flag_of(front.bias) * 32
        + flag_of(front.pttdisabled) * 64
}

pub(crate) fn c1_of(host: Host) -> u8
    ensures { result ≡ c1_of host }
{
    u8::from(host.speed)
        + u8::from(host.source10) * 4
        + u8::from(host.source122) * 16
        + u8::from(host.boards) * 32
        + u8::from(host.microphone) * 128
}

pub(crate) fn c3_of(host: Host) -> u8
    ensures { result ≡ c3_of host }
{
    u8::from(host.attenuator)
        + flag_of(host.preamp) * 4
        + flag_of(host.dither) * 8
        + flag_of(host.random) * 16
        + u8::from(host.antenna) * 32
        + flag_of(host.rxout) * 128
}
