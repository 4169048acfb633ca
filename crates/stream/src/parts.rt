// What is held, followed by the piece, as one list of bytes in two parts that stay where they are.
ghost use Rattle.std.specs.Prelude.{◌++◌, ◌≤◌, length};

use wire::copy::put;

// The two parts: at most 514 held bytes and a piece of at most 4,096.
#[derive(Clone, Copy)]
pub(crate) struct Joined<'a> {
    pub(crate) held: &'a [u8],
    pub(crate) piece: &'a [u8],
    ghost few: { length (held.now ++ piece.now) ≤ 4610 },
}

impl<'a> Joined<'a> {
    ghost use Rattle.std.specs.Prelude.{◌≡◌, ◌+◌, ◌≤◌, ◌<◌, length, get_or, take, drop};
    ghost use Rattle.std.proofs.lemmas.List.Edits.{sets};
    ghost use Rattle.stream.specs.Record.{cells};
    ghost use Rattle.stream.specs.Joined.{bytes};

    pub(crate) fn len(&self) -> usize
        ensures { result ≡ length (bytes self.now) }
    {
        self.held.len() + self.piece.len()
    }

    // The byte at a place.
    pub(crate) fn byte(&self, place: usize) -> u8
        requires { place < length (bytes self.now) }
        ensures { result ≡ get_or (bytes self.now) place 0 }
    {
        if place < self.held.len() {
            self.held[place]
        } else {
            self.piece[place - self.held.len()]
        }
    }

    // The bytes from a place on, as many as are asked for, over those of `to`. Only a part that lies across the
    // join touches both.
    pub(crate) fn put_part(&self, place: usize, count: usize, to: &mut [u8], at: usize)
        requires { (place + count ≤ length (bytes self.now)) × (at + count ≤ length to.old) }
        ensures { to.new ≡ sets to.old at (take count (drop place (bytes self.now))) }
    {
        if self.held.len() <= place {
            let start = place - self.held.len();
            put(to, at, &self.piece[start..start + count]);
            return;
        }
        let near = count.min(self.held.len() - place);
        put(to, at, &self.held[place..place + near]);
        put(to, at + near, &self.piece[..count - near]);
    }

    // What is left from a place on, at the start of cells that are zero past it.
    pub(crate) fn left(&self, place: usize) -> [u8; 514]
        requires { (place ≤ length (bytes self.now)) × (length (bytes self.now) ≤ place + 514) }
        ensures { result ≡ cells 514 (drop place (bytes self.now)) }
    {
        let mut cells = [0u8; 514];
        self.put_part(place, self.len() - place, &mut cells, 0);
        cells
    }
}
