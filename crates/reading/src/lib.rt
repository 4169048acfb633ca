// The reading of a list of bytes, which every reader of streams follows: `specs/Reading.antt` has the rule, and
// `proofs/` the laws about it. There is no code here.
#![tactic(auto)]
