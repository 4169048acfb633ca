// What a host program tells its radio, as one record: every field of words 0 to 10, with the named choices and
// their codes on the wire.
//
// No function here has a `requires`: a code above a choice's last is taken for the last, but for the two choices of
// three, the 10 MHz source and the transmit relay, where it is `Unassigned`.
#![tactic(auto)]

pub mod choices;
pub mod record;
