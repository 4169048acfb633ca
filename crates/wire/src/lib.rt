// What every frame of the protocol is made of: numbers and their bytes, copies of bytes, fields of bits,
// the sync bytes, and the answers that the calls of this library give.
//
// No function here has a `requires`: each takes what it is given. `specs/` has what each one means.
#![tactic(auto)]

pub mod control;
pub mod copy;
pub mod fields;
pub mod numbers;
pub mod places;
pub mod sync;
pub mod zeros;

ghost use Rattle.std.specs.Prelude.{◌≡◌, ◌+◌, ◌*◌, ◌≤◌};
ghost use Rattle.wire.specs.Answers.{number_of, place_of, told};
ghost use Rattle.wire.specs.Causes.{cause_number};

// What a call answers: it is accepted, or refused.
pub type Answer = Result<(), Refusal>;

// The nine refusals, in the order they are tested. Three of them carry their place: the byte of the frame, from
// 0, that is wrong, or the cause.
#[derive(Clone, Copy, Debug, PartialEq, Eq)]
pub enum Refusal {
    BadState,
    BadCount,
    Length,
    ShortBuffer,
    StreamFull,
    NoSync(u16),
    Padding(u16),
    Reserved(Cause),
    Range,
}

// What is refused as RESERVED, in the order it is tested. Of a host frame the unassigned codes and bits: word
// 0's 10 MHz source and its transmit relay, word 9's C4 bit 7, word 10's C1 bit 7. Of a radio frame the levels
// above twelve bits: word 1's AIN5 and AIN1, word 2's AIN2 and AIN3, word 3's AIN4 and AIN6.
#[derive(Clone, Copy, Debug, PartialEq, Eq)]
pub enum Cause {
    Source10,
    Relay,
    Word9C4Bit7,
    Word10C1Bit7,
    Ain5,
    Ain1,
    Ain2,
    Ain3,
    Ain4,
    Ain6,
}

impl Refusal {
    // Its number in document 01's table.
    pub fn number(self) -> u8
        ensures { result ≡ number_of (Err self) }
    {
        match self {
            Refusal::BadState => 1,
            Refusal::BadCount => 2,
            Refusal::Length => 3,
            Refusal::ShortBuffer => 4,
            Refusal::StreamFull => 5,
            Refusal::NoSync(_) => 6,
            Refusal::Padding(_) => 7,
            Refusal::Reserved(_) => 8,
            Refusal::Range => 9,
        }
    }

    // The place that it carries: a byte of the frame, or the number of a cause; 0 where it carries none.
    pub fn place(self) -> u16
        ensures { result ≡ place_of (Err self) }
    {
        match self {
            Refusal::BadState => 0,
            Refusal::BadCount => 0,
            Refusal::Length => 0,
            Refusal::ShortBuffer => 0,
            Refusal::StreamFull => 0,
            Refusal::NoSync(byte) => byte,
            Refusal::Padding(byte) => byte,
            Refusal::Reserved(cause) => u16::from(cause),
            Refusal::Range => 0,
        }
    }
}

// Its number, as T-02, T-07 and T-08 have it.
impl From<Cause> for u16 {
    ghost from_gives = { λ cause number. number ≡ cause_number cause };

    fn from(cause: Cause) -> u16 {
        match cause {
            Cause::Source10 => 1,
            Cause::Relay => 2,
            Cause::Word9C4Bit7 => 3,
            Cause::Word10C1Bit7 => 4,
            Cause::Ain5 => 5,
            Cause::Ain1 => 6,
            Cause::Ain2 => 7,
            Cause::Ain3 => 8,
            Cause::Ain4 => 9,
            Cause::Ain6 => 10,
        }
    }
}

// The number that a report prints for an answer: 0, or the refusal's.
pub fn number(answer: Answer) -> u8
    ensures { result ≡ number_of answer }
{
    match answer {
        Ok(()) => 0,
        Err(refusal) => refusal.number(),
    }
}

// The place that an answer carries: its refusal's, and 0 where it is accepted.
pub fn place(answer: Answer) -> u16
    ensures { result ≡ place_of answer }
{
    match answer {
        Ok(()) => 0,
        Err(refusal) => refusal.place(),
    }
}

// An answer as one number: its own in bits 7 to 0, and its place in bits 31 to 16.
pub fn tell(answer: Answer) -> u32
    ensures { (result ≡ told answer) × (result ≤ 255 + 65536 * 65535) }
{
    let number = number(answer);
    let place = place(answer);
    number as u32 + 65536 * (place as u32)
}
