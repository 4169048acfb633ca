// The stream reader. Its record crosses as two slices: four counts, and the 514 bytes that may be held.
ghost use Rattle.std.specs.Prelude.{◌≡◌};
ghost use Rattle.stream_door.specs.Stream.{left, fresh_in, sound_in, gave, feed_in};

use stream_door::{stream_feed, stream_fresh, stream_sound};
use wire::number;

#[unsafe(no_mangle)]
pub extern "C" fn hpsdr_stream_fresh(counts: &mut [u64], held: &mut [u8]) -> u32
    ensures { left result counts.new held.new ≡ fresh_in counts.old held.old }
{
    u32::from(number(stream_fresh(counts, held)))
}

#[unsafe(no_mangle)]
pub extern "C" fn hpsdr_stream_sound(counts: &[u64], held: &[u8]) -> u32
    ensures { result ≡ sound_in counts.now held.now }
{
    u32::from(number(stream_sound(counts, held)))
}

#[unsafe(no_mangle)]
pub extern "C" fn hpsdr_stream_feed(
    counts: &mut [u64],
    held: &mut [u8],
    piece: &[u8],
    output: &mut [u8],
) -> u32
    ensures { gave result counts.new held.new output.new ≡ feed_in counts.old held.old piece.now output.old }
{
    match stream_feed(counts, held, piece, output) {
        Ok(frames) => 256 * u32::from(frames),
        Err(refusal) => u32::from(refusal.number()),
    }
}
