// The words from the host: the control bytes C0 to C4, and the record after the word that they carry.
//
// `reserved` and `next` take any five bytes; a word that is not listed sets MOX only.
#![tactic(auto)]

ghost use Rattle.std.specs.Prelude.{◌≡◌};
ghost use Rattle.wire.specs.Answers.{first};
ghost use Rattle.host_words.specs.Words.{address, hertz, controls_of, highpass_of, lowpass_of, front_of, unassigned, heard, after};

use host_record::choices::{
    Antenna, Attenuator, Boards, Jack, Microphone, Relay, Source10, Source122, Speed,
};
use host_record::record::{Controls, Front, HighPass, Host, LowPass};
use wire::control::Control;
use wire::fields::{field, is_on};
use wire::numbers::be32;
use wire::{Answer, Cause, Refusal};

// The number of the word that is carried, 0 to 127.
pub fn address(c: Control) -> u8
    ensures { result ≡ address c }
{
    field(c.c0, 7, 1)
}

// Whether the word that is carried sets an unassigned code or bit, and the first that it sets.
pub fn reserved(c: Control) -> Answer
    ensures { result ≡ first (unassigned c) }
{
    match address(c) {
        0 if field(c.c1, 3, 2) == 3 => Err(Refusal::Reserved(Cause::Source10)),
        0 if field(c.c4, 1, 0) == 3 => Err(Refusal::Reserved(Cause::Relay)),
        9 if is_on(c.c4, 7) => Err(Refusal::Reserved(Cause::Word9C4Bit7)),
        10 if is_on(c.c1, 7) => Err(Refusal::Reserved(Cause::Word10C1Bit7)),
        _ => Ok(()),
    }
}

// The record after an accepted frame: what its word carries, and MOX.
#[tactic(auto, unfolding(crate::specs::Words::heard))]
pub fn next(c: Control, mut host: Host) -> Host
    ensures { result ≡ after c host }
{
    let address = address(c);
    host.mox = is_on(c.c0, 0);
    match address {
        0 => host = settings(c, host),
        1 => host.transmitter = hertz(c),
        2..=8 => host.frequencies[(address - 2) as usize] = hertz(c),
        9 => {
            host.drive = c.c1;
            host.controls = controls_of(c.c2);
            host.highpass = highpass_of(c.c3);
            host.lowpass = lowpass_of(c.c4);
        }
        10 => host.front = front_of(c),
        11..=255 => {}
    }
    host
}

// What word 0 carries. MOX is as it was.
#[tactic(auto, unfolding(crate::specs::Words::heard))]
pub(crate) fn settings(c: Control, host: Host) -> Host
    ensures { result ≡ record (heard 0 c host) { mox = host.mox } }
{
    let Control { c1, c2, c3, c4, .. } = c;
    Host {
        speed: Speed::from(field(c1, 1, 0)),
        source10: Source10::try_from(field(c1, 3, 2)).unwrap_or(host.source10),
        source122: Source122::from(field(c1, 4, 4)),
        boards: Boards::from(field(c1, 6, 5)),
        microphone: Microphone::from(field(c1, 7, 7)),
        classe: is_on(c2, 0),
        outputs: field(c2, 7, 1),
        attenuator: Attenuator::from(field(c3, 1, 0)),
        preamp: is_on(c3, 2),
        dither: is_on(c3, 3),
        random: is_on(c3, 4),
        antenna: Antenna::from(field(c3, 6, 5)),
        rxout: is_on(c3, 7),
        relay: Relay::try_from(field(c4, 1, 0)).unwrap_or(host.relay),
        duplex: is_on(c4, 2),
        receivers: field(c4, 5, 3) + 1,
        timestamp: is_on(c4, 6),
        common: is_on(c4, 7),
        ..host
    }
}

// The frequency of words 1 to 8.
pub(crate) fn hertz(c: Control) -> u32
    ensures { result ≡ hertz c }
{
    be32(c.c1, c.c2, c.c3, c.c4)
}

// The parts of words 9 and 10. No `From`: the types are the record's crate's, and the bits this one's.
pub(crate) fn controls_of(c2: u8) -> Controls
    ensures { result ≡ controls_of c2 }
{
    Controls {
        boost: is_on(c2, 0),
        linein: is_on(c2, 1),
        filter: is_on(c2, 2),
        tuner: is_on(c2, 3),
        tune: is_on(c2, 4),
        board: is_on(c2, 5),
        manual: is_on(c2, 6),
        vna: is_on(c2, 7),
    }
}

pub(crate) fn highpass_of(c3: u8) -> HighPass
    ensures { result ≡ highpass_of c3 }
{
    HighPass {
        mhz13: is_on(c3, 0),
        mhz20: is_on(c3, 1),
        mhz9: is_on(c3, 2),
        mhz6: is_on(c3, 3),
        mhz1: is_on(c3, 4),
        bypass: is_on(c3, 5),
        amplifier: is_on(c3, 6),
        trdisabled: is_on(c3, 7),
    }
}

pub(crate) fn lowpass_of(c4: u8) -> LowPass
    ensures { result ≡ lowpass_of c4 }
{
    LowPass {
        m30: is_on(c4, 0),
        m60: is_on(c4, 1),
        m80: is_on(c4, 2),
        m160: is_on(c4, 3),
        m6: is_on(c4, 4),
        m12: is_on(c4, 5),
        m17: is_on(c4, 6),
    }
}

pub(crate) fn front_of(c: Control) -> Front
    ensures { result ≡ front_of c }
{
    let c1 = c.c1;
    let c2 = c.c2;
    Front {
        preamp1: is_on(c1, 0),
        preamp2: is_on(c1, 1),
        preamp3: is_on(c1, 2),
        preamp4: is_on(c1, 3),
        jack: Jack::from(field(c1, 4, 4)),
        bias: is_on(c1, 5),
        pttdisabled: is_on(c1, 6),
        gain: field(c2, 4, 0),
        c2top: field(c2, 7, 5),
        c3: c.c3,
        c4: c.c4,
    }
}
