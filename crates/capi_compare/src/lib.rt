// Comparison for C and Rust. The function calls the one it stands for in the crate `compare`, and its contract cites the same definition. A slice goes as its
// address and its length, an id as its raw number.
#![tactic(auto)]

ghost use Rattle.std.specs.Prelude.{◌≡◌};
ghost use Rattle.arena.specs.Lent.{before};
ghost use Rattle.compare.specs.Compare.{compared, compare_of};

use arena::Arena;
use compare::Compared;
use ids::BlockId;

pub fn fenpiling_compare(
    arena: Arena,
    kids: &[u64],
    facts: &[u32],
    find: &[u16],
    left: u64,
    right: u64,
    depth: u32,
    codes: &mut [u32],
    lefts: &mut [u16],
    rights: &mut [u16],
) -> Compared
    ensures { compared result codes.new lefts.new rights.new ≡ compare_of (before arena kids.now facts.now find.now) left right depth codes.old lefts.old rights.old }
{
    Compared::from(compare::compare(
        arena.seen(kids, facts, find),
        BlockId(left),
        BlockId(right),
        depth,
        codes,
        lefts,
        rights,
    ))
}
