// The ledger: over any sequence of calls since the fresh arena, the holds of every node are those granted less those returned or used, and a
// node goes exactly when nobody holds it and nothing that stays stands on it.
// No code: see specs/ and proofs/.
#![tactic(auto)]
