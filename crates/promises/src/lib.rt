// The list of all calls that change an arena, and what a caller may rely on over any sequence of them.
// No code: see specs/ and proofs/.
#![tactic(auto)]
