// The library as C and Rust see it: every public call, on numbers and lent slices.
//
// A record crosses as a lent slice of numbers, its cells: one for each field, a flag as 1 or 0, a choice as
// its code. Cells that can be no record are refused as BAD_STATE, before all else, and a refusal writes
// nothing. What a call returns is its answer in bits 7 to 0, and what it found in the bits above.
#![tactic(auto)]

mod host_calls;
mod radio_calls;
mod stream_calls;
