// The bytes that are held, in the cells where they are lent: what is left of them and of the piece takes their
// place.
ghost use Rattle.std.specs.Prelude.{◌≡◌, true, ◌++◌, ◌+◌, ◌≤◌, length, take, drop};
ghost use Rattle.std.proofs.lemmas.List.Edits.{sets};
ghost use Rattle.wire.specs.Every.{all_zero};
ghost use Rattle.stream.specs.Record.{cells};

use wire::copy::put;

// What is left from a place on of the held bytes, of which there are `count`, and the piece. Cells past it are
// cleared where bytes were held; the others are zero already.
pub(crate) fn hold(held: &mut [u8; 514], count: usize, piece: &[u8], place: usize)
    requires clean { (count ≤ 514) × (all_zero (drop count held.old) ≡ true) }
    requires place_bound { (place ≤ count + length piece.now) × (count + length piece.now ≤ place + 514) }
    ensures { held.new ≡ cells 514 (drop place (take count held.old ++ piece.now)) }
{
    lay(held, count, piece, place);
    let end = count + piece.len() - place;
    if end < count {
        held[end..count].fill(0);
    }
}

// What is left, at the start of the cells, and whatever was there behind it.
pub(crate) fn lay(held: &mut [u8; 514], count: usize, piece: &[u8], place: usize)
    requires few { count ≤ 514 }
    requires place_bound { (place ≤ count + length piece.now) × (count + length piece.now ≤ place + 514) }
    ensures { held.new ≡ sets held.old 0 (drop place (take count held.old ++ piece.now)) }
{
    if count <= place {
        put(held, 0, &piece[place - count..]);
        return;
    }
    shift(held, place, count);
    put(held, count - place, piece);
}

// The bytes from a place up to an end, moved to the start. Where they stand there, nothing is moved: a stream that
// comes in small pieces would pay for it with each.
pub(crate) fn shift(held: &mut [u8; 514], place: usize, end: usize)
    requires { (place ≤ end) × (end ≤ 514) }
    ensures { held.new ≡ sets held.old 0 (drop place (take end held.old)) }
{
    if 0 < place {
        held.copy_within(place..end, 0);
    }
}
