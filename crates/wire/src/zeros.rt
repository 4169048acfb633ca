// Bytes that must be zero: padding, and cells that hold nothing.
ghost use Rattle.std.specs.Prelude.{◌≡◌};
ghost use Rattle.wire.specs.Every.{all_zero};

// Whether every byte is 0. It has no early way out, so that many are taken at a time. `all_fit24` is the same loop over another
// test: as a parameter, a test would come with clauses of its own that are longer than the loop.
pub fn all_zero(part: &[u8]) -> bool
    ensures { result ≡ all_zero part.now }
{
    let mut so_far = true;
    for b in part {
        so_far = so_far & (*b == 0);
    }
    so_far
}
