// The sentence about a place.
ghost use Rattle.std.specs.Prelude.{◌≡◌, ◌+◌, ◌≤◌, get_or};
ghost use Rattle.text.specs.Put.{gave, put_of, Puts};
ghost use Rattle.sentences.specs.Sentence.{sentence_of, inside_text, skipped_text, held_text};

use crate::parts::{byte_after, labelled, wrong};
use text::Writer;
use why::Reason;

pub fn sentence(input: &[u8], place: usize, reason: Reason, out: &mut [u8], at: usize) -> usize
    ensures { gave result out.new ≡ put_of out.old at (sentence_of input.now place reason) }
{
    let mut writer = Writer { out, at };
    said(&mut writer, input, place, reason);
    writer.at
}

pub(crate) fn said(writer: &mut Writer, input: &[u8], place: usize, reason: Reason)
    ensures { Puts writer.old writer.new (sentence_of input.now place reason) }
{
    match reason {
        Reason::NotGiven => {}
        Reason::Inside(q) => inside(writer, place, q),
        Reason::Near(k) => skipped(writer, input, place, 0, k, b" of the sync there"),
        Reason::Far(k) => skipped(
            writer,
            input,
            place,
            512,
            k,
            b" of the sync 512 bytes later",
        ),
        Reason::Held => held(writer, place),
    }
}

pub(crate) fn inside(writer: &mut Writer, place: usize, q: usize)
    ensures { Puts writer.old writer.new (inside_text place q) }
{
    labelled(writer, b"byte ", place);
    labelled(
        writer,
        b" was handed out: it is byte ",
        place.saturating_sub(q),
    );
    labelled(writer, b" of the frame that begins at byte ", q);
    writer.byte(b'\n');
}

// Byte k of the sync so far ahead of the place is wrong.
pub(crate) fn skipped(
    writer: &mut Writer,
    input: &[u8],
    place: usize,
    ahead: usize,
    k: u8,
    sync: &[u8],
)
    requires { ahead ≤ 512 }
    ensures { Puts writer.old writer.new (skipped_text place k sync.now (get_or input.now (place + (ahead + k)) 0)) }
{
    labelled(writer, b"byte ", place);
    labelled(writer, b" was skipped: byte ", usize::from(k));
    writer.put(sync);
    wrong(writer, byte_after(input, place, ahead + usize::from(k)));
}

pub(crate) fn held(writer: &mut Writer, place: usize)
    ensures { Puts writer.old writer.new (held_text place) }
{
    labelled(writer, b"byte ", place);
    writer.put(b" is still held: where the reading stopped, fewer than 515 bytes remain\n");
}
