// Document 01's table of worked examples, as one list.
// No code: see specs/ and proofs/.
#![tactic(auto)]
