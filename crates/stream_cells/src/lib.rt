// The stream record as two slices: four counts, and the 514 bytes that may be held.
//
// No public function here has a `requires`: where there are too few cells nothing is written, and what is
// made of them is a fresh record.
#![tactic(auto)]

ghost use Rattle.std.specs.Prelude.{◌≡◌, cond, take, IfSome, Err};
ghost use Rattle.std.specs.Option.{is_some};
ghost use Rattle.wire.specs.Answers.{Accepted};
ghost use Rattle.wire.specs.declared.Refusal.TheVariants.{BadState};
ghost use Rattle.stream_cells.specs.Stream.{lent, stream_in, put_in};

use stream::{Counts, Stream};
use wire::{Answer, Refusal};

// The cells of a record, where there are as many as one takes: its four counts, and the bytes that may be held.
pub fn room<'a>(counts: &'a [u64], held: &'a [u8]) -> Option<(&'a [u64; 4], &'a [u8; 514])>
    ensures some { is_some result ≡ lent counts.now held.now }
    ensures cells { IfSome result (λ p. (p.0.now ≡ take 4 counts.now) × (p.1.now ≡ take 514 held.now)) }
{
    Some((counts.first_chunk()?, held.first_chunk()?))
}

// The record that the cells are; too few of them give a fresh one.
pub fn stream_in(counts: &[u64], held: &[u8]) -> Stream
    ensures { result ≡ stream_in counts.now held.now }
{
    let Some((counts, held)) = room(counts, held) else {
        return Stream::fresh();
    };
    let given = Counts::from(*counts);
    Stream {
        held: *held,
        count: given.count,
        frames: given.frames,
        skipped: given.skipped,
        total: given.total,
    }
}

// Writes a record over the first of the cells, where there are enough of them.
pub fn put_stream(stream: Stream, counts: &mut [u64], held: &mut [u8]) -> Answer
    ensures answer { result ≡ cond (lent counts.old held.old) Accepted (Err BadState) }
    ensures cells { (counts.new, held.new) ≡ put_in stream counts.old held.old }
{
    let Some(counts) = counts.first_chunk_mut::<4>() else {
        return Err(Refusal::BadState);
    };
    let Some(held) = held.first_chunk_mut::<514>() else {
        return Err(Refusal::BadState);
    };
    *counts = stream.counts().into();
    let bytes = stream.held;
    *held = bytes;
    Ok(())
}
