// Records as cells: a lent slice of numbers, one for each field.
//
// No function here has a `requires`: each takes what it is given, and where there are too few cells nothing
// is written. `specs/` has what each one means.
#![tactic(auto)]

ghost use Rattle.std.specs.Prelude.{◌≡◌};
ghost use Rattle.wire.specs.Answers.{number_of};
ghost use Rattle.cells.specs.Cells.{within, returned_by, wrote, offered};

use wire::{Answer, Refusal, tell};

// Whether the cells can be a record's: none is missing, and none holds more than its field can. It has
// no early way out, so that many are tested at a time, and goes over as many cells as there are mosts, whose number is a
// constant where it is called: a table of them is folded into the tests.
#[tactic(auto, using(crate::proofs::Tested::too_few))]
pub fn within(most: &[u32], cells: &[u32]) -> bool
    ensures { result ≡ within most.now cells.now }
{
    if cells.len() < most.len() {
        return false;
    }
    let mut so_far = true;
    for (cell, most) in cells[..most.len()].iter().zip(most) {
        so_far = so_far & (*cell <= *most);
    }
    so_far
}

// Writes a record over the first of the cells, where there are enough of them.
#[tactic(auto, using(crate::proofs::Cases::offered_few, crate::proofs::Cases::offered_over))]
pub fn offer(cells: &mut [u32], fields: &[u32]) -> Answer
    ensures { wrote (number_of result) cells.new ≡ offered fields.now cells.old }
{
    if cells.len() < fields.len() {
        return Err(Refusal::BadState);
    }
    cells[..fields.len()].copy_from_slice(fields);
    Ok(())
}

// What a call returns to C: what it found; refused, its answer with the place.
pub fn returned(given: Result<u8, Refusal>) -> u32
    ensures { result ≡ returned_by given }
{
    match given {
        Ok(found) => 256 * (found as u32),
        Err(refusal) => tell(Err(refusal)),
    }
}
