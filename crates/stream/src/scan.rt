// The reading of what is held, followed by the piece, from its place 0.
ghost use Rattle.std.specs.Prelude.{◌≡◌, true, false, cond, ◌&&◌, [], ◌++◌, ℕ, ◌+◌, ◌-◌, ◌<◌, ◌≤◌, max, leb, length};
ghost use Rattle.wire.specs.Sync.{sync_at};
ghost use Rattle.reading.specs.Reading.{good};
ghost use Rattle.stream.specs.Joined.{bytes};
ghost use Rattle.stream.specs.Steps.{Scans};

use crate::MOST;
use crate::parts::Joined;

// The frames handed out, the bytes skipped, and the place of what is left.
#[derive(Clone, Copy)]
pub struct Scanned {
    pub frames: usize,
    pub skipped: usize,
    pub place: usize,
}

impl<'a> Joined<'a> {
    // Whether sync stands at a place: `wire::sync::sync_at` has one slice, and this two.
    pub(crate) fn sync(&self, place: usize) -> bool
        requires { place + 3 ≤ length (bytes self.now) }
        ensures { result ≡ sync_at (bytes self.now) place }
    {
        self.byte(place) == 0x7f && self.byte(place + 1) == 0x7f && self.byte(place + 2) == 0x7f
    }

    // Whether a good frame begins at a place.
    pub(crate) fn begins(&self, place: usize) -> bool
        requires { place + 515 ≤ length (bytes self.now) }
        ensures { result ≡ good (bytes self.now) place }
    {
        self.sync(place) && self.sync(place + 512)
    }

    // The first place, from `start` on, that begins a good frame, or the one at which fewer than 515 bytes remain.
    // A byte that is not 7F is no byte of a sync, so where it is the third one three places are ruled out.
    pub(crate) fn next_good(&self, start: usize) -> usize
        requires { start ≤ length (bytes self.now) }
        ensures lower_bound { (start ≤ result) × (result ≤ max start (length (bytes self.now) - 514)) }
        ensures by_index { (k : ℕ) → start ≤ k → k < result → good (bytes self.now) k ≡ false }
        ensures result_value { result + 515 ≤ length (bytes self.now) → good (bytes self.now) result ≡ true }
    {
        let length = self.len();
        if length < start + 515 {
            return start;
        }
        let end = length - 514;
        let mut place = start;
        // A step is of three bytes or of one: no iterator's step is either of two.
        while place < end {
            if self.byte(place + 2) != 0x7f {
                place += 3;
            } else {
                if self.begins(place) {
                    return place;
                }
                place += 1;
            }
        }
        end
    }

    pub(crate) fn read(&self, output: &mut [u8]) -> Scanned
        requires { 4096 ≤ length output.old }
        ensures { Scans (bytes self.now) output.old result output.new }
    {
        let mut frames = 0;
        let mut place = self.next_good(0);
        // The next place is the one that `next_good` gives, so that no range has it.
        while place + 515 <= self.len() {
            self.put_part(place, 512, output, 512 * frames);
            frames += 1;
            place = self.next_good(place + 512);
        }
        Scanned {
            frames,
            skipped: place - 512 * frames,
            place,
        }
    }
}

// The reading of at most 514 held bytes and a piece of at most 4,096 to an output of at least 4,096. Of more,
// or to fewer, nothing is read: the three zeros of a reading of no bytes are then its promise.
pub fn scan(held: &[u8], piece: &[u8], output: &mut [u8]) -> Scanned
    ensures { Scans (cond (leb (length held.now) 514 && leb (length piece.now) 4096 && leb 4096 (length output.old)) (held.now ++ piece.now) []) output.old result output.new }
{
    if !fits(held.len(), piece.len(), output.len()) {
        return Scanned {
            frames: 0,
            skipped: 0,
            place: 0,
        };
    }
    Joined { held, piece }.read(output)
}

pub(crate) fn fits(held: usize, piece: usize, output: usize) -> bool
    ensures { result ≡ leb held 514 && leb piece 4096 && leb 4096 output }
{
    held <= 514 && piece <= MOST && MOST <= output
}
