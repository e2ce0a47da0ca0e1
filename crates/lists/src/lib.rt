// Lists of changes, and the runs of calls that enter them: any two orders of one list give the same id, and where a cell comes twice the last value decides.
// For n children and any kind of cells: crate `promises` has the cube's. No code: see specs/ and proofs/.
#![tactic(auto)]
