// That the plain reader and the stream reader agree: `specs/Same.antt` says on what, and `proofs/PlainAndQuick.antt` has
// the theorem. There is no code here.
#![tactic(auto)]
