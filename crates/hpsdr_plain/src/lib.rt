// The plain reader, as C and Rust see it: on lent slices, with its answer and its counts as one number.
//
// It is a library of its own beside `hpsdr`, of which an object of its own is made, so that neither changes how the
// other is compiled.
#![tactic(auto)]

ghost use Rattle.std.specs.Prelude.{◌≡◌};
ghost use Rattle.wire.specs.Answers.{Accepted};
ghost use Rattle.cells.specs.Cells.{wrote};
ghost use Rattle.plain.specs.Plain.{Few};
ghost use Rattle.hpsdr_plain.specs.Plain.{returned_of, plain_read_of};

use plain::Plain;
use wire::tell;

#[unsafe(no_mangle)]
pub extern "C" fn hpsdr_plain_read(input: &[u8], output: &mut [u8]) -> u64
    ensures { wrote result output.new ≡ plain_read_of input.now output.old }
{
    match plain::read(input, output) {
        Ok(plain) => returned(plain),
        Err(refusal) => tell(Err(refusal)) as u64,
    }
}

// The frames in bits 15 to 8, the bytes skipped in bits 47 to 32, the bytes left in bits 63 to 48, and the answer, which
// is 0, in bits 7 to 0.
pub(crate) fn returned(plain: Plain) -> u64
    requires { Few plain.frames plain.skipped plain.left }
    ensures { result ≡ returned_of Accepted plain.frames plain.skipped plain.left }
{
    256 * (plain.frames as u64)
        + 0x1_0000_0000 * (plain.skipped as u64)
        + 0x1_0000_0000_0000 * (plain.left as u64)
}
