// The analog levels: twelve bits in two bytes.
ghost use Rattle.std.specs.Prelude.{◌≡◌};
ghost use Rattle.radio_status.specs.Levels.{level_of, UpTo4095, two_levels, levels_at};
ghost use Rattle.radio_status.specs.Words.{address};

use wire::control::Control;
use wire::fields::field;
use wire::numbers::be16;
use wire::{Cause, Refusal};

// A level as its two bytes tell it, a number up to 4,095: none where any of the top four bits of the sixteen is set.
pub fn level_of(high: u8, low: u8) -> Option<u16>
    ensures { (result ≡ level_of high low) × UpTo4095 result }
{
    if field(high, 7, 4) != 0 {
        return None;
    }
    Some(be16(high, low))
}

// The number in C1 and C2, and the one in C3 and C4.
#[derive(Clone, Copy)]
pub struct TwoLevels {
    pub c1c2: u16,
    pub c3c4: u16,
}

// Those of the word that is addressed, or the refusal of the first that is a level above 4,095. In words 0, 4 and
// unlisted ones they are no levels: nothing is refused, and nothing of such a word is made of them.
pub fn levels_of(control: Control) -> Result<TwoLevels, Refusal>
    ensures { result ≡ levels_at (address control.c0) control.c1 control.c2 control.c3 control.c4 }
{
    match field(control.c0, 7, 3) {
        1 => two_levels(control, Cause::Ain5, Cause::Ain1),
        2 => two_levels(control, Cause::Ain2, Cause::Ain3),
        3 => two_levels(control, Cause::Ain4, Cause::Ain6),
        _ => Ok(TwoLevels {
            c1c2: be16(control.c1, control.c2),
            c3c4: be16(control.c3, control.c4),
        }),
    }
}

// Two levels, each with the cause that names it.
fn two_levels(control: Control, in_c1: Cause, in_c3: Cause) -> Result<TwoLevels, Refusal>
    ensures { result ≡ two_levels control.c1 control.c2 control.c3 control.c4 in_c1 in_c3 }
{
    let c1c2 = level_of(control.c1, control.c2).ok_or(Refusal::Reserved(in_c1))?;
    let c3c4 = level_of(control.c3, control.c4).ok_or(Refusal::Reserved(in_c3))?;
    Ok(TwoLevels { c1c2, c3c4 })
}
