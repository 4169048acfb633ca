// The words from the radio: decoding the five control bytes, and the record after a word.
ghost use Rattle.std.specs.Prelude.{◌≡◌};
ghost use Rattle.radio_status.specs.Words.{address, word_with, word_number, input_word, board_word, carried, applied};

use crate::levels::TwoLevels;
use crate::record::{
    ForwardLevels, Inputs, Overflow, ReverseLevels, Status, SupplyLevels, Versions,
};
use wire::control::Control;
use wire::fields::{field, is_on};

// Word 0 as it came: ADC 1's overflow, and the rest.
#[derive(Clone, Copy)]
pub struct InputWord {
    pub adc1: bool,
    pub inputs: Inputs,
}

// Word 4 as it came.
#[derive(Clone, Copy)]
pub struct BoardWord {
    pub overflow: Overflow,
    pub versions: Versions,
}

// Which word came, with its contents: words 0 to 4, or one that is not listed, by its address.
#[derive(Clone, Copy)]
pub enum Word {
    Input(InputWord),
    Forward(ForwardLevels),
    Reverse(ReverseLevels),
    Supply(SupplyLevels),
    Board(BoardWord),
    Unlisted(u8),
}

// A word's number, which is its address.
impl From<Word> for u8 {
    ghost from_gives = { λ word number. number ≡ word_number word };

    fn from(word: Word) -> u8 {
        match word {
            Word::Input(_) => 0,
            Word::Forward(_) => 1,
            Word::Reverse(_) => 2,
            Word::Supply(_) => 3,
            Word::Board(_) => 4,
            Word::Unlisted(address) => address,
        }
    }
}

// The word that came. Of words 1 to 3 it has the levels that were read of their bytes.
pub fn decode(control: Control, levels: TwoLevels) -> Word
    ensures { result ≡ word_with levels (address control.c0) control.c1 control.c2 control.c3 control.c4 }
{
    let address = field(control.c0, 7, 3);
    match address {
        0 => Word::Input(input_word(control)),
        1 => Word::Forward(ForwardLevels {
            ain5: levels.c1c2,
            ain1: levels.c3c4,
        }),
        2 => Word::Reverse(ReverseLevels {
            ain2: levels.c1c2,
            ain3: levels.c3c4,
        }),
        3 => Word::Supply(SupplyLevels {
            ain4: levels.c1c2,
            ain6: levels.c3c4,
        }),
        4 => Word::Board(board_word(control)),
        _ => Word::Unlisted(address),
    }
}

fn input_word(control: Control) -> InputWord
    ensures { result ≡ input_word control.c1 control.c2 control.c3 control.c4 }
{
    let c1 = control.c1;
    InputWord {
        adc1: is_on(c1, 0),
        inputs: Inputs {
            io1: !is_on(c1, 1),
            io2: !is_on(c1, 2),
            io3: !is_on(c1, 3),
            io4: !is_on(c1, 4),
            pll: is_on(c1, 5),
            toggle: is_on(c1, 6),
            mercury: control.c2,
            penelope: control.c3,
            main: control.c4,
        },
    }
}

fn board_word(control: Control) -> BoardWord
    ensures { result ≡ board_word control.c1 control.c2 control.c3 control.c4 }
{
    BoardWord {
        overflow: Overflow {
            adc1: is_on(control.c1, 0),
            adc2: is_on(control.c2, 0),
            adc3: is_on(control.c3, 0),
            adc4: is_on(control.c4, 0),
        },
        versions: Versions {
            board1: field(control.c1, 7, 1),
            board2: field(control.c2, 7, 1),
            board3: field(control.c3, 7, 1),
            board4: field(control.c4, 7, 1),
        },
    }
}

// The record after an accepted frame. DOT, DASH and PTT follow every word; an unlisted one carries
// nothing else.
#[tactic(auto, unfolding(crate::specs::Words::applied))]
pub fn apply(status: Status, c0: u8, word: Word) -> Status
    ensures { result ≡ applied c0 word status }
{
    let mut next = status;
    next.dot = is_on(c0, 2);
    next.dash = is_on(c0, 1);
    next.ptt = is_on(c0, 0);
    let Word::Unlisted(_) = word else {
        return carry(next, word);
    };
    next
}

// The fields that a listed word carries, and no others.
fn carry(status: Status, word: Word) -> Status
    ensures { result ≡ carried word status }
{
    let mut next = status;
    match word {
        Word::Input(w) => {
            next.overflow.adc1 = w.adc1;
            next.inputs = w.inputs;
        }
        Word::Forward(levels) => {
            next.forward = levels;
        }
        Word::Reverse(levels) => {
            next.reverse = levels;
        }
        Word::Supply(levels) => {
            next.supply = levels;
        }
        Word::Board(w) => {
            next.overflow = w.overflow;
            next.versions = w.versions;
        }
        Word::Unlisted(_) => {}
    }
    next
}
