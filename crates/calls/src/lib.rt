// What any call does to an arena, as one record that composes; and what follows from it alone.
// No code: see specs/ and proofs/.
#![tactic(auto)]
