// The mathematics of nodes: what a node is, what reading shows, tidy, sameness, edits. Over `W s f`, the word f of the slot s (crate nodes).
// In code only the parts of an id: see specs/ and proofs/ for the rest.
#![tactic(auto)]

ghost use Rattle.std.specs.Prelude.{◌≡◌};
ghost use Rattle.nodes.specs.Words.{kid_of};
ghost use Rattle.tree.specs.Anew.{part};

use ids::BlockId;
use nodes::kid;

// Place c of an id: a child of a branch; a leaf, and EMPTY, stands for eight of itself.
pub fn part_of(kids: &[u64], id: u64, c: usize) -> u64
    ensures { result ≡ part (kid_of kids.now) id c }
{
    if BlockId(id).is_end() {
        return id;
    }
    kid(kids, BlockId(id).index() as usize, c)
}
