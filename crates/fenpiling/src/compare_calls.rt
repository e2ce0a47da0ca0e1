// The comparison of two roots.
ghost use Rattle.std.specs.Prelude.{◌≡◌};
ghost use Rattle.arena.specs.Lent.{before};
ghost use Rattle.compare.specs.Compare.{compared, compare_of};

use arena::Arena;
use compare::Compared;

#[unsafe(no_mangle)]
pub extern "C" fn fenpiling_compare(
    arena: Arena,
    kids: &[u64],
    facts: &[u32],
    find: &[u16],
    left: u64,
    right: u64,
    depth: u32,
    codes: &mut [u32],
    lefts: &mut [u16],
    rights: &mut [u16],
) -> Compared
    ensures { compared result codes.new lefts.new rights.new ≡ compare_of (before arena kids.now facts.now find.now) left right depth codes.old lefts.old rights.old }
{
    capi_compare::fenpiling_compare(
        arena, kids, facts, find, left, right, depth, codes, lefts, rights,
    )
}
