// The samples of a payload. The payload is the part of a frame from byte 8, and each slot a part of that.
ghost use Rattle.std.specs.Prelude.{◌≡◌, ◌+◌, ◌*◌, ◌/◌, ◌≤◌, length};
ghost use Rattle.wire.specs.Lists.{over, tab};
ghost use Rattle.layout.specs.Slots.{values as values_of, slots};
ghost use Rattle.radio_samples.specs.Samples.{sample24, sample16, iq_at, mic_at};

use layout::Row;
use wire::numbers::{sample16, sample24};

// There are as many Q values as I values, so that their number is even, and each contract says so: a type of pairs would not be the
// numbers that C lends.

// Every sample of the payload, in slot order, at the start of its slice.
pub(crate) fn read_slots(payload: &[u8], row: Row, iq: &mut [i32], mic: &mut [i16])
    requires { (length payload.now ≡ 504) × (values_of row.receivers ≤ length iq.old) × (slots row.receivers ≤ length mic.old) }
    ensures { (iq.new ≡ over (values_of row.receivers) (iq_at row.receivers payload.now) iq.old) × (mic.new ≡ over (slots row.receivers) (mic_at row.receivers payload.now) mic.old) }
{
    for t in 0..row.slots {
        let at = t * row.slot;
        let count = 2 * row.receivers;
        let from = t * count;
        mic[t] = read_slot(&payload[at..at + row.slot], &mut iq[from..from + count]);
    }
}

// The I and Q values of a slot, over their slice, and its microphone value.
pub(crate) fn read_slot(part: &[u8], values: &mut [i32]) -> i16
    requires { (length values.old ≡ length values.old / 2 * 2) × (3 * length values.old + 2 ≤ length part.now) }
    ensures { (values.new ≡ tab (length values.old) (λ j. sample24 part.now (3 * j))) × (result ≡ sample16 part.now (3 * length values.old)) }
{
    let at = 3 * values.len();
    read_receivers(part, values);
    sample16(part[at], part[at + 1])
}

// I and Q of each receiver of a part, over a slice. The loop of `read_values` is compiled to take many values at a time, which pays
// from three receivers on.
pub(crate) fn read_receivers(part: &[u8], values: &mut [i32])
    requires { (length values.old ≡ length values.old / 2 * 2) × (3 * length values.old ≤ length part.now) }
    ensures { values.new ≡ tab (length values.old) (λ j. sample24 part.now (3 * j)) }
{
    if values.len() < 6 {
        read_pairs(part, values);
    } else {
        read_values(part, values);
    }
}

// The same, a receiver at a time. I and Q are both taken before either is stored, which is faster.
pub(crate) fn read_pairs(part: &[u8], values: &mut [i32])
    requires { (length values.old ≡ length values.old / 2 * 2) × (3 * length values.old ≤ length part.now) }
    ensures { values.new ≡ tab (length values.old) (λ j. sample24 part.now (3 * j)) }
{
    for r in 0..values.len() / 2 {
        let b = r * 6;
        let c = b + 3;
        let i = sample24(part[b], part[b + 1], part[b + 2]);
        let q = sample24(part[c], part[c + 1], part[c + 2]);
        values[r * 2] = i;
        values[r * 2 + 1] = q;
    }
}

// A sample of each three bytes from the start of a part, over a slice.
pub(crate) fn read_values(part: &[u8], values: &mut [i32])
    requires { 3 * length values.old ≤ length part.now }
    ensures { values.new ≡ tab (length values.old) (λ j. sample24 part.now (3 * j)) }
{
    for j in 0..values.len() {
        let b = 3 * j;
        values[j] = sample24(part[b], part[b + 1], part[b + 2]);
    }
}
