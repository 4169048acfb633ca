// The reader of a stream of bytes: it finds the frames in pieces of any size, however the stream is
// cut, and finds its place again after damage.
//
// A `Stream` is a value. Start with `Stream::fresh()`, and give each record that `feed` returns to
// the next call, with the next piece. After a refusal the record given stands, and the output is as it was.
#![tactic(auto)]

mod parts;
pub mod scan;

ghost use Rattle.std.specs.Prelude.{◌≡◌, [], ◌∷◌, ◌++◌, length, get_or, Ok};
ghost use Rattle.wire.specs.Answers.{first};
ghost use Rattle.reading.specs.Reading.{reading};
ghost use Rattle.stream.specs.Record.{fresh_of, sound_of, held_bytes};
ghost use Rattle.stream.specs.Feed.{gave, refusals, accepted, feed_of};
ghost use Rattle.stream.specs.Steps.{Ready};

use crate::parts::Joined;
use wire::{Answer, Refusal};

// No piece is longer, and no output shorter: eight frames, the most that can come from one call.
pub const MOST: usize = 4096;

// No more bytes are fed to one stream.
pub const FULL: u64 = 0x1_0000_0000_0000;

#[derive(Clone, Copy)]
pub struct Stream {
    // the bytes left by the calls so far; the cells past `count` are zero: document 01's record, which C lends as it is
    pub held: [u8; 514],
    pub count: usize,
    pub frames: u64,
    pub skipped: u64,
    pub total: u64,
}

// The numbers of a record whose cells are lent, and not part of it. `Stream` has the four itself, and no `Counts`: its
// fields are those of document 01's record.
#[derive(Clone, Copy)]
pub struct Counts {
    pub count: usize,
    pub frames: u64,
    pub skipped: u64,
    pub total: u64,
}

// Each in a cell of its own, in this order.
impl From<[u64; 4]> for Counts {
    ghost from_gives = { λ cells counts. counts ≡ record { count = get_or cells 0 0; frames = get_or cells 1 0; skipped = get_or cells 2 0; total = get_or cells 3 0 } };

    fn from(cells: [u64; 4]) -> Counts {
        Counts {
            count: cells[0] as usize,
            frames: cells[1],
            skipped: cells[2],
            total: cells[3],
        }
    }
}

impl From<Counts> for [u64; 4] {
    ghost from_gives = { λ counts cells. cells ≡ counts.count ∷ counts.frames ∷ counts.skipped ∷ counts.total ∷ [] };

    fn from(counts: Counts) -> [u64; 4] {
        [
            counts.count as u64,
            counts.frames,
            counts.skipped,
            counts.total,
        ]
    }
}

// What an accepted call gives back: the frames are those handed out in this call.
#[derive(Clone, Copy)]
pub struct Fed {
    pub frames: usize,
    pub next: Stream,
}

impl Stream {
    pub fn fresh() -> Stream
        ensures { result ≡ fresh_of }
    {
        Stream {
            held: [0; 514],
            count: 0,
            frames: 0,
            skipped: 0,
            total: 0,
        }
    }

    // Whether the record is one that a reading can have left.
    pub fn sound(self) -> bool
        ensures { result ≡ sound_of self }
    {
        is_sound(self.counts(), &self.held)
    }

    pub fn counts(self) -> Counts
        ensures { result ≡ record { count = self.count; frames = self.frames; skipped = self.skipped; total = self.total } }
    {
        Counts {
            count: self.count,
            frames: self.frames,
            skipped: self.skipped,
            total: self.total,
        }
    }

    // Reads the held bytes followed by the piece. The frames stand at the start of the output. Refused, the record
    // given stands.
    pub fn feed(self, piece: &[u8], output: &mut [u8]) -> Result<Fed, Refusal>
        ensures { gave self result output.new ≡ feed_of self piece.now output.old }
    {
        answer_of(self.counts(), &self.held, piece.len(), output.len())?;
        Ok(self.read_on(piece, output))
    }

    // The call, where no test refuses it.
    pub(crate) fn read_on(self, piece: &[u8], output: &mut [u8]) -> Fed
        requires { Ready self (length piece.now) (length output.old) }
        ensures { gave self (Ok result) output.new ≡ accepted self (length piece.now) (reading (held_bytes self ++ piece.now)) output.old }
    {
        let joined = Joined {
            held: &self.held[..self.count],
            piece,
        };
        let scanned = joined.read(output);
        let place = scanned.place;
        Fed {
            frames: scanned.frames,
            next: Stream {
                held: joined.left(place),
                count: joined.len() - place,
                frames: self.frames + scanned.frames as u64,
                skipped: self.skipped + scanned.skipped as u64,
                total: self.total + piece.len() as u64,
            },
        }
    }
}

// Whether a record of these numbers and cells is one that a reading can have left. A damaged one may hold
// any numbers, so the sum is taken only where it cannot wrap. Only this and `answer_of` take the two, which are lent apart.
pub fn is_sound(counts: Counts, held: &[u8]) -> bool
    ensures { result ≡ sound_of (record { held = held.now; count = counts.count; frames = counts.frames; skipped = counts.skipped; total = counts.total }) }
{
    let count = counts.count;
    if 514 < count {
        return false;
    }
    if FULL < counts.total {
        return false;
    }
    if counts.total < counts.frames {
        return false;
    }
    if counts.total < counts.skipped {
        return false;
    }
    if 512 * counts.frames + counts.skipped + count as u64 != counts.total {
        return false;
    }
    if held.len() < count {
        return true;
    }
    wire::zeros::all_zero(&held[count..])
}

// The answer to a call on a record of these numbers and cells, by the lengths of the piece and of the output.
pub fn answer_of(counts: Counts, held: &[u8], piece: usize, output: usize) -> Answer
    ensures { result ≡ first (refusals (record { held = held.now; count = counts.count; frames = counts.frames; skipped = counts.skipped; total = counts.total }) piece output) }
{
    if !is_sound(counts, held) {
        return Err(Refusal::BadState);
    }
    if MOST < piece {
        return Err(Refusal::Length);
    }
    if output < MOST {
        return Err(Refusal::ShortBuffer);
    }
    if FULL < counts.total + piece as u64 {
        return Err(Refusal::StreamFull);
    }
    Ok(())
}
