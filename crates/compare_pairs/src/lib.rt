// Pairs of ids: which pairs are opened.
// Definitions of the differing cells and of the pairs opened: specs/Differing.antt.
#![tactic(auto)]

ghost use Rattle.std.specs.Prelude.{◌≡◌};
ghost use Rattle.compare_pairs.specs.Differing.{branches};
ghost use Rattle.compare_pairs.specs.Models.{goes_on};

use ids::BlockId;

// Is the id a branch other than EMPTY?
#[tactic(auto, using(crate::proofs::Ids::branches_is), unfolding(ids::specs::Ids::is_end))]
fn is_branch(id: u64) -> bool
    ensures { result ≡ branches id }
{
    !BlockId(id).is_end()
}

// Of two different ids with so many levels left: is there a level, and one of them a branch?
#[tactic(auto, unfolding(crate::specs::Models::goes_on))]
pub fn goes_on(a: u64, b: u64, left: u32) -> bool
    ensures { result ≡ goes_on left a b }
{
    left != 0 && (is_branch(a) || is_branch(b))
}
