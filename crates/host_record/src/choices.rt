// The named choices of the host record, each with its code on the wire by a match, as document 01 has it.
ghost use Rattle.std.specs.Prelude.{◌≡◌, ◌<◌};
ghost use Rattle.host_record.specs.Choices.{speed_code, speed_of, source10_code, source10_of, source122_code, source122_of, boards_code, boards_of, microphone_code, microphone_of, attenuator_code, attenuator_of, antenna_code, antenna_of, relay_code, relay_of, jack_code, jack_of};

#[derive(Clone, Copy)]
pub enum Speed {
    Khz48,
    Khz96,
    Khz192,
    Khz384,
}

// Where the 10 MHz reference comes from.
#[derive(Clone, Copy)]
pub enum Source10 {
    AtlasOrExcalibur,
    Penelope,
    Mercury,
}

// Where the 122.88 MHz clock comes from.
#[derive(Clone, Copy)]
pub enum Source122 {
    Penelope,
    Mercury,
}

#[derive(Clone, Copy)]
pub enum Boards {
    Neither,
    Penelope,
    Mercury,
    Both,
}

#[derive(Clone, Copy)]
pub enum Microphone {
    Janus,
    Penelope,
}

#[derive(Clone, Copy)]
pub enum Attenuator {
    Db0,
    Db10,
    Db20,
    Db30,
}

#[derive(Clone, Copy)]
pub enum Antenna {
    Unused,
    Rx1,
    Rx2,
    Xv,
}

#[derive(Clone, Copy)]
pub enum Relay {
    Tx1,
    Tx2,
    Tx3,
}

// Orion's microphone jack: the contact that the PTT goes to; the microphone goes to the other.
#[derive(Clone, Copy, Default)]
pub enum Jack {
    #[default]
    PttToRing,
    PttToTip,
}

// A code that names no choice: code 3 of the 10 MHz source, and of the transmit relay.
#[derive(Clone, Copy)]
pub struct Unassigned;

impl From<Speed> for u8 {
    ghost from_gives = { λ speed code. (code ≡ speed_code speed) × (code < 4) };

    fn from(speed: Speed) -> u8 {
        match speed {
            Speed::Khz48 => 0,
            Speed::Khz96 => 1,
            Speed::Khz192 => 2,
            Speed::Khz384 => 3,
        }
    }
}

impl From<u8> for Speed {
    ghost from_gives = { λ code speed. speed ≡ speed_of code };

    fn from(code: u8) -> Speed {
        match code {
            0 => Speed::Khz48,
            1 => Speed::Khz96,
            2 => Speed::Khz192,
            _ => Speed::Khz384,
        }
    }
}

impl From<Source10> for u8 {
    ghost from_gives = { λ source10 code. (code ≡ source10_code source10) × (code < 4) };

    fn from(source10: Source10) -> u8 {
        match source10 {
            Source10::AtlasOrExcalibur => 0,
            Source10::Penelope => 1,
            Source10::Mercury => 2,
        }
    }
}

impl TryFrom<u8> for Source10 {
    type Error = Unassigned;

    ghost try_from_gives = { λ code found. found ≡ source10_of code };

    fn try_from(code: u8) -> Result<Source10, Unassigned> {
        match code {
            0 => Ok(Source10::AtlasOrExcalibur),
            1 => Ok(Source10::Penelope),
            2 => Ok(Source10::Mercury),
            _ => Err(Unassigned),
        }
    }
}

impl From<Source122> for u8 {
    ghost from_gives = { λ source122 code. (code ≡ source122_code source122) × (code < 2) };

    fn from(source122: Source122) -> u8 {
        match source122 {
            Source122::Penelope => 0,
            Source122::Mercury => 1,
        }
    }
}

impl From<u8> for Source122 {
    ghost from_gives = { λ code source122. source122 ≡ source122_of code };

    fn from(code: u8) -> Source122 {
        match code {
            0 => Source122::Penelope,
            _ => Source122::Mercury,
        }
    }
}

impl From<Boards> for u8 {
    ghost from_gives = { λ boards code. (code ≡ boards_code boards) × (code < 4) };

    fn from(boards: Boards) -> u8 {
        match boards {
            Boards::Neither => 0,
            Boards::Penelope => 1,
            Boards::Mercury => 2,
            Boards::Both => 3,
        }
    }
}

impl From<u8> for Boards {
    ghost from_gives = { λ code boards. boards ≡ boards_of code };

    fn from(code: u8) -> Boards {
        match code {
            0 => Boards::Neither,
            1 => Boards::Penelope,
            2 => Boards::Mercury,
            _ => Boards::Both,
        }
    }
}

impl From<Microphone> for u8 {
    ghost from_gives = { λ microphone code. (code ≡ microphone_code microphone) × (code < 2) };

    fn from(microphone: Microphone) -> u8 {
        match microphone {
            Microphone::Janus => 0,
            Microphone::Penelope => 1,
        }
    }
}

impl From<u8> for Microphone {
    ghost from_gives = { λ code microphone. microphone ≡ microphone_of code };

    fn from(code: u8) -> Microphone {
        match code {
            0 => Microphone::Janus,
            _ => Microphone::Penelope,
        }
    }
}

impl From<Attenuator> for u8 {
    ghost from_gives = { λ attenuator code. (code ≡ attenuator_code attenuator) × (code < 4) };

    fn from(attenuator: Attenuator) -> u8 {
        match attenuator {
            Attenuator::Db0 => 0,
            Attenuator::Db10 => 1,
            Attenuator::Db20 => 2,
            Attenuator::Db30 => 3,
        }
    }
}

impl From<u8> for Attenuator {
    ghost from_gives = { λ code attenuator. attenuator ≡ attenuator_of code };

    fn from(code: u8) -> Attenuator {
        match code {
            0 => Attenuator::Db0,
            1 => Attenuator::Db10,
            2 => Attenuator::Db20,
            _ => Attenuator::Db30,
        }
    }
}

impl From<Antenna> for u8 {
    ghost from_gives = { λ antenna code. (code ≡ antenna_code antenna) × (code < 4) };

    fn from(antenna: Antenna) -> u8 {
        match antenna {
            Antenna::Unused => 0,
            Antenna::Rx1 => 1,
            Antenna::Rx2 => 2,
            Antenna::Xv => 3,
        }
    }
}

impl From<u8> for Antenna {
    ghost from_gives = { λ code antenna. antenna ≡ antenna_of code };

    fn from(code: u8) -> Antenna {
        match code {
            0 => Antenna::Unused,
            1 => Antenna::Rx1,
            2 => Antenna::Rx2,
            _ => Antenna::Xv,
        }
    }
}

impl From<Relay> for u8 {
    ghost from_gives = { λ relay code. (code ≡ relay_code relay) × (code < 4) };

    fn from(relay: Relay) -> u8 {
        match relay {
            Relay::Tx1 => 0,
            Relay::Tx2 => 1,
            Relay::Tx3 => 2,
        }
    }
}

impl TryFrom<u8> for Relay {
    type Error = Unassigned;

    ghost try_from_gives = { λ code found. found ≡ relay_of code };

    fn try_from(code: u8) -> Result<Relay, Unassigned> {
        match code {
            0 => Ok(Relay::Tx1),
            1 => Ok(Relay::Tx2),
            2 => Ok(Relay::Tx3),
            _ => Err(Unassigned),
        }
    }
}

impl From<Jack> for u8 {
    ghost from_gives = { λ jack code. (code ≡ jack_code jack) × (code < 2) };

    fn from(jack: Jack) -> u8 {
        match jack {
            Jack::PttToRing => 0,
            Jack::PttToTip => 1,
        }
    }
}

impl From<u8> for Jack {
    ghost from_gives = { λ code jack. jack ≡ jack_of code };

    fn from(code: u8) -> Jack {
        match code {
            0 => Jack::PttToRing,
            _ => Jack::PttToTip,
        }
    }
}
