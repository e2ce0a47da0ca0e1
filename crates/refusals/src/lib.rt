// What each number of packing, the paths, reading and the edit says: given exactly if.
// No code: see specs/ and proofs/.
#![tactic(auto)]
