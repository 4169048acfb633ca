// The stream reader, on numbers and lent slices: its record crosses as four counts, and the 514 bytes that
// may be held.
#![tactic(auto)]

mod held;

ghost use Rattle.std.specs.Prelude.{◌≡◌, [], ◌∷◌, get_or};
ghost use Rattle.wire.specs.Answers.{number_of};
ghost use Rattle.stream.specs.Feed.{feed_of};
ghost use Rattle.stream_cells.specs.Stream.{stream_of};
ghost use Rattle.stream_door.specs.Stream.{left, fresh_in, sound_in, gave, got_by, shown, feed_in};

use held::hold;
use stream::scan::scan;
use stream::{Counts, Stream, answer_of};
use stream_cells::{put_stream, room, stream_in};
use wire::{Answer, Refusal};

pub fn stream_fresh(counts: &mut [u64], held: &mut [u8]) -> Answer
    ensures { left (number_of result) counts.new held.new ≡ fresh_in counts.old held.old }
{
    put_stream(Stream::fresh(), counts, held)
}

pub fn stream_sound(counts: &[u64], held: &[u8]) -> Answer
    ensures { number_of result ≡ sound_in counts.now held.now }
{
    if room(counts, held).is_none() {
        return Err(Refusal::BadState);
    }
    if !stream_in(counts, held).sound() {
        return Err(Refusal::BadState);
    }
    Ok(())
}

// The frames that are handed out.
pub fn stream_feed(
    counts: &mut [u64],
    held: &mut [u8],
    piece: &[u8],
    output: &mut [u8],
) -> Result<u8, Refusal>
    ensures { gave (got_by result) counts.new held.new output.new ≡ feed_in counts.old held.old piece.now output.old }
{
    let Some(counts) = counts.first_chunk_mut::<4>() else {
        return Err(Refusal::BadState);
    };
    let Some(held) = held.first_chunk_mut::<514>() else {
        return Err(Refusal::BadState);
    };
    feed(counts, held, piece, output)
}

// The frames of a call on a record's cells, or its refusal. The cells are read where they are lent, and no record is
// made of them.
pub(crate) fn feed(
    counts: &mut [u64; 4],
    held: &mut [u8; 514],
    piece: &[u8],
    output: &mut [u8],
) -> Result<u8, Refusal>
    ensures { gave (got_by result) counts.new held.new output.new ≡ shown counts.old held.old (feed_of (stream_of counts.old held.old) piece.now output.old) }
{
    let given = counts_in(counts);
    answer_of(given, held, piece.len(), output.len())?;
    let scanned = scan(&held[..given.count], piece, output);
    hold(held, given.count, piece, scanned.place);
    // `Stream::feed` has the same sums: a function of both would be public, and could not ask that they fit.
    let next = Counts {
        count: given.count + piece.len() - scanned.place,
        frames: given.frames + scanned.frames as u64,
        skipped: given.skipped + scanned.skipped as u64,
        total: given.total + piece.len() as u64,
    };
    put_counts(next, counts);
    Ok(scanned.frames as u8)
}

// The counts that the cells are. They are read, and written, one by one where they are lent: `From` would make an array of them,
// and a feed has none.
fn counts_in(cells: &[u64; 4]) -> Counts
    ensures { result ≡ record { count = get_or cells.now 0 0; frames = get_or cells.now 1 0; skipped = get_or cells.now 2 0; total = get_or cells.now 3 0 } }
{
    Counts {
        count: cells[0] as usize,
        frames: cells[1],
        skipped: cells[2],
        total: cells[3],
    }
}

fn put_counts(counts: Counts, cells: &mut [u64; 4])
    ensures { cells.new ≡ counts.count ∷ counts.frames ∷ counts.skipped ∷ counts.total ∷ [] }
{
    cells[0] = counts.count as u64;
    cells[1] = counts.frames;
    cells[2] = counts.skipped;
    cells[3] = counts.total;
}
