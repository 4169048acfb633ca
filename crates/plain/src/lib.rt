// The plain reader: an input of up to 65,536 bytes, read at once, place by place, by the words of document 01's rule.
// It keeps nothing between calls, and leans on the rule and on no other reader.
#![tactic(auto)]

ghost use Rattle.std.specs.Prelude.{◌≡◌};
ghost use Rattle.plain.specs.Plain.{gave, plain_of};

use wire::Refusal;
use wire::copy::put;
use wire::sync::sync_at;

// No input is longer.
pub const MOST: usize = 65536;

// What an accepted call gives back: the frames handed out, the bytes skipped, and how many are left at the end of the
// input.
#[derive(Clone, Copy)]
pub struct Plain {
    pub frames: usize,
    pub skipped: usize,
    pub left: usize,
}

// "A place begins a good frame if sync stands there and again 512 bytes later. The reading starts at place 0. While at
// least 515 bytes remain: at a good frame hand out its 512 bytes and go on 512; otherwise skip one byte."
// The frames stand at the start of the output, which keeps its remainder. Refused, nothing is written.
pub fn read(input: &[u8], output: &mut [u8]) -> Result<Plain, Refusal>
    ensures { gave result output.new ≡ plain_of input.now output.old }
{
    let length = input.len();
    if MOST < length {
        return Err(Refusal::Length);
    }
    if output.len() < length {
        return Err(Refusal::ShortBuffer);
    }
    let mut frames = 0;
    let mut skipped = 0;
    let mut place = 0;
    // A step is of 512 bytes or of one, as the rule has it: no iterator's step is either of two.
    while 515 <= length - place {
        if sync_at(input, place) && sync_at(input, place + 512) {
            put(output, 512 * frames, &input[place..place + 512]);
            frames += 1;
            place += 512;
        } else {
            skipped += 1;
            place += 1;
        }
    }
    Ok(Plain {
        frames,
        skipped,
        left: length - place,
    })
}
