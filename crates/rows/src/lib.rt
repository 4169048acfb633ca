// Rows a to l of document 01, shown true by the definitions that the contracts cite. `specs/Rows.antt` has the
// list and `proofs/Hold.antt` the one claim that all of it holds. There is no code here.
#![tactic(auto)]
