// The samples of a frame that is written, each over its place.
ghost use Rattle.std.specs.Prelude.{◌≡◌, ◌+◌, ◌*◌, ◌/◌, ◌≤◌, ◌++◌, length};
ghost use Rattle.std.proofs.lemmas.List.Edits.{sets};
ghost use Rattle.wire.specs.Lists.{tabs};
ghost use Rattle.wire.specs.Numbers.{bytes_of, unsigned};
ghost use Rattle.layout.specs.Slots.{values as values_of, slots};
ghost use Rattle.radio_samples.specs.Fill.{iq_bytes, slot_bytes};

use layout::Row;
use wire::numbers::{bytes_of_sample16, bytes_of_sample24};

// Every slot, one after another, from byte 8 on.
pub(crate) fn write_slots(iq: &[i32], mic: &[i16], row: Row, frame: &mut [u8])
    requires { (values_of row.receivers ≤ length iq.now) × (slots row.receivers ≤ length mic.now) × (length frame.old ≡ 512) }
    ensures { frame.new ≡ sets frame.old 8 (tabs (slots row.receivers) (slot_bytes row.receivers iq.now mic.now)) }
{
    for t in 0..row.slots {
        let at = 8 + t * row.slot;
        let count = 2 * row.receivers;
        let from = t * count;
        write_slot(
            &iq[from..from + count],
            mic[t],
            &mut frame[at..at + row.slot],
        );
    }
}

// A slot: the values of its receivers, and its microphone value.
pub(crate) fn write_slot(values: &[i32], mic: i16, slot: &mut [u8])
    requires { (length values.now ≡ length values.now / 2 * 2) × (length slot.old ≡ 3 * length values.now + 2) }
    ensures { slot.new ≡ tabs (length values.now) (iq_bytes values.now) ++ bytes_of 2 (unsigned 16 mic) }
{
    write_receivers(values, slot);
    let end = 3 * values.len();
    let b = bytes_of_sample16(mic);
    slot[end] = b[0];
    slot[end + 1] = b[1];
}

// I and Q of each receiver, over the start of a part; by two loops, as in reading.
pub(crate) fn write_receivers(values: &[i32], part: &mut [u8])
    requires { (length values.now ≡ length values.now / 2 * 2) × (length values.now * 3 ≤ length part.old) }
    ensures { part.new ≡ sets part.old 0 (tabs (length values.now) (iq_bytes values.now)) }
{
    if values.len() < 6 {
        write_pairs(values, part);
    } else {
        write_values(values, part);
    }
}

// The same, a receiver at a time.
pub(crate) fn write_pairs(values: &[i32], part: &mut [u8])
    requires { (length values.now ≡ length values.now / 2 * 2) × (length values.now * 3 ≤ length part.old) }
    ensures { part.new ≡ sets part.old 0 (tabs (length values.now) (iq_bytes values.now)) }
{
    for r in 0..values.len() / 2 {
        let i = values[r * 2];
        let q = values[r * 2 + 1];
        let b = r * 6;
        write_value(i, part, b);
        write_value(q, part, b + 3);
    }
}

// Samples, three bytes each, over the start of a part.
pub(crate) fn write_values(values: &[i32], part: &mut [u8])
    requires { length values.now * 3 ≤ length part.old }
    ensures { part.new ≡ sets part.old 0 (tabs (length values.now) (iq_bytes values.now)) }
{
    for j in 0..values.len() {
        write_value(values[j], part, j * 3);
    }
}

// A sample's three bytes, each stored by itself: as a copy of three bytes the same frame took five times as long.
pub(crate) fn write_value(x: i32, part: &mut [u8], at: usize)
    requires { at + 3 ≤ length part.old }
    ensures { part.new ≡ sets part.old at (bytes_of 3 (unsigned 24 x)) }
{
    let b = bytes_of_sample24(x).bytes;
    part[at] = b[0];
    part[at + 1] = b[1];
    part[at + 2] = b[2];
}
