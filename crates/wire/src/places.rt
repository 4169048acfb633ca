// Places: the first byte that is not the one that is due.
ghost use Rattle.std.specs.Prelude.{◌≡◌};
ghost use Rattle.wire.specs.Places.{first_other};

// The place of the first byte that is not `due`; their number where each of them is. It is asked once a
// test of all of them has failed.
pub fn first_other(part: &[u8], due: u8) -> usize
    ensures { result ≡ first_other due part.now }
{
    for (i, b) in part.iter().enumerate() {
        if *b != due {
            return i;
        }
    }
    part.len()
}
