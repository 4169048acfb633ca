// A text that goes whole to an output.
//
// What an output's failure means is the caller's to say: it names the failure that it gives on.
#![tactic(auto)]

ghost use Rattle.std.specs.Prelude.{◌≡◌, OnOk, IfErr};
ghost use Rattle.std.specs.Io.KnownBytes.{Appends};

use std::io::Write;

// Writes all of the text. Where the output does not take it, the failure named is the answer.
pub fn write<W: Write, E: Drop>(output: &mut W, text: &[u8], failure: E) -> Result<(), E>
    ensures written { OnOk result (Appends (W.contents output.old) (W.contents output.new) text.now) }
    ensures failed { IfErr result (λ e. e ≡ failure) }
{
    output.write_all(text).map_err(|_| failure)
}
