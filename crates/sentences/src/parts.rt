// Parts of the lines.
ghost use Rattle.std.specs.Prelude.{◌≡◌, ◌+◌, get_or};
ghost use Rattle.text.specs.Put.{Puts};
ghost use Rattle.sentences.specs.Parts.{labelled_of, wrong_of, counted_of, subject_of};

use text::Writer;

// A label, and a number.
pub fn labelled(writer: &mut Writer, label: &[u8], n: usize)
    ensures { Puts writer.old writer.new (labelled_of label.now n) }
{
    writer.put(label);
    writer.number(n as u64);
}

// That a byte of a sync is wrong, which ends a line.
pub(crate) fn wrong(writer: &mut Writer, value: u8)
    ensures { Puts writer.old writer.new (wrong_of value) }
{
    writer.put(b" is ");
    writer.hex(value);
    writer.put(b" and not 7F\n");
}

// A number, and the word for one or for several.
pub(crate) fn counted(writer: &mut Writer, n: usize, one: &[u8], many: &[u8])
    ensures { Puts writer.old writer.new (counted_of n one.now many.now) }
{
    writer.number(n as u64);
    if n == 1 {
        writer.put(one);
        return;
    }
    writer.put(many);
}

// The places of a run, and what is said of one or of several.
pub(crate) fn subject(writer: &mut Writer, start: usize, end: usize, one: &[u8], many: &[u8])
    ensures { Puts writer.old writer.new (subject_of start end one.now many.now) }
{
    if end.saturating_sub(start) == 1 {
        labelled(writer, b"byte ", start);
        writer.put(one);
        return;
    }
    labelled(writer, b"bytes ", start);
    labelled(writer, b" to ", end.saturating_sub(1));
    writer.put(many);
}

// The byte so far after a place, or 0 where the input has none.
pub fn byte_after(input: &[u8], place: usize, ahead: usize) -> u8
    ensures { result ≡ get_or input.now (place + ahead) 0 }
{
    input.get(place.saturating_add(ahead)).copied().unwrap_or(0)
}
