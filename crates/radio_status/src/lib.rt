// What a radio tells of itself: the status record, and the words that carry it, both ways.
//
// `levels::levels_of`, `words::decode` and `words::apply` read a word's five control bytes into a record, or refuse
// its levels; `control::write_header` writes them from one, before which `control::status_fits` says whether its
// versions and its levels can be written. Each takes any bytes, any record and any frame.
#![tactic(auto)]

pub mod control;
pub mod levels;
pub mod record;
pub mod words;
