// The 252 numbers of a host payload: 63 slots of L, R, I, Q. A caller's slice has them in that order; in the frame its I stands
// in the bytes drawn as Q, and its Q in those drawn as I (T-03).
//
// `read_slots` and `write_numbers` take what they are given: unless the payload has 504 bytes and the slice at
// least 252 numbers, the one that is lent stays as it is.
#![tactic(auto)]

ghost use Rattle.std.specs.Prelude.{◌≡◌, length, get_or, pos};
ghost use Rattle.wire.specs.Lists.{tab};
ghost use Rattle.host_samples.specs.Samples.{pair_of, slot_number, pairs_from, whole, slots_read, numbers_written};

use wire::numbers::{bytes_of_sample16, sample16};

// Whether so many bytes are a payload, and so many numbers enough for one.
#[tactic(auto, unfolding(crate::specs::Samples::whole))]
pub(crate) fn whole(bytes: usize, numbers: usize) -> bool
    ensures { result ≡ whole bytes numbers }
{
    bytes == 504 && 252 <= numbers
}

// A slot's four with I and Q exchanged, from the caller's order to that of the frame and back.
pub(crate) fn swapped(four: &[i16; 4]) -> [i16; 4]
    ensures { result ≡ tab 4 (λ j. get_or four.now (pair_of j) (pos 0)) }
{
    let [l, r, i, q] = *four;
    [l, r, q, i]
}

// One slot's four numbers, in the caller's order. They are stored one by one: of a copy from an array that is made here it is
// tested each time whether the two overlap, and a read takes 1.7 times as long.
pub(crate) fn read_slot(slot: &[u8; 8], out: &mut [i16])
    requires { length out.old ≡ 4 }
    ensures { out.new ≡ tab 4 (slot_number slot.now) }
{
    let [l0, l1, r0, r1, i0, i1, q0, q1] = *slot;
    let [l, r, i, q] = swapped(&[
        sample16(l0, l1),
        sample16(r0, r1),
        sample16(i0, i1),
        sample16(q0, q1),
    ]);
    out[0] = l;
    out[1] = r;
    out[2] = i;
    out[3] = q;
}

// The payload's numbers, over the start of audio. Here and below the part that is written is taken by its place: what a
// slice is after `chunks_exact_mut` or `as_chunks_mut` no contract says. The three loops over parts stand apart: the contract of
// one over a closure would be longer than they are.
pub fn read_slots(payload: &[u8], audio: &mut [i16])
    ensures { audio.new ≡ slots_read payload.now audio.old }
{
    if whole(payload.len(), audio.len()) {
        let (slots, _) = payload.as_chunks::<8>();
        for (t, slot) in slots.iter().enumerate() {
            read_slot(slot, &mut audio[t * 4..t * 4 + 4]);
        }
    }
}

// One slot's bytes, from its four numbers in the caller's order.
pub(crate) fn write_slot(slot: &mut [u8], numbers: &[i16; 4])
    requires { length slot.old ≡ 8 }
    ensures { slot.new ≡ pairs_from 4 numbers.now }
{
    let drawn = swapped(numbers);
    for (m, number) in drawn.iter().enumerate() {
        let [high, low] = bytes_of_sample16(*number);
        slot[m * 2] = high;
        slot[m * 2 + 1] = low;
    }
}

// Seven slots. Their numbers come by value, all taken before a byte is written, so that the compiler can take many at a time:
// of a number not yet taken it cannot know that a byte written does not change it.
pub(crate) fn write_seven(part: &mut [u8], numbers: [i16; 28])
    requires { length part.old ≡ 56 }
    ensures { part.new ≡ pairs_from 28 numbers }
{
    let (slots, _) = numbers.as_chunks::<4>();
    for (t, slot) in slots.iter().enumerate() {
        write_slot(&mut part[t * 8..t * 8 + 8], slot);
    }
}

// The whole payload, from the first 252 numbers of audio.
pub fn write_numbers(payload: &mut [u8], audio: &[i16])
    ensures { payload.new ≡ numbers_written audio.now payload.old }
{
    if whole(payload.len(), audio.len()) {
        let (sevens, _) = audio[..252].as_chunks::<28>();
        for (t, numbers) in sevens.iter().enumerate() {
            write_seven(&mut payload[t * 56..t * 56 + 56], *numbers);
        }
    }
}
