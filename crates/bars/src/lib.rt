// The bar (request 1 of 02): the cells from x to x + more at y and z are edited with one value, in rising order, and each passing root is released
// after the next is made. What it answers and leaves: specs/Bars.antt.
#![tactic(auto)]

ghost use Rattle.std.specs.Prelude.{◌≡◌, ◌+◌, ◌^◌, ◌<◌};
ghost use Rattle.basics.specs.Limits.{deepest, cube_kids};
ghost use Rattle.paths.specs.Paths.{place};
ghost use Rattle.arena.specs.Calls.{Fair, made_of};
ghost use Rattle.arena.specs.Lent.{before, before_in, made};
ghost use Rattle.arena.specs.Tables.{state_in};
ghost use Rattle.bars.specs.Bars.{bar_of};
ghost use Rattle.bars.specs.Models.{next_of, on_of};

use arena::{Arena, Made};
use ids::BlockId;
use paths::IVec3;

// The cell (x, y, z).
#[tactic(auto, using(crate::proofs::Steps::cell_is))]
fn cell(x: u32, y: u16, z: u16) -> IVec3
    requires { x < 2 ^ 31 }
    ensures { result ≡ place x y z }
{
    IVec3 {
        x: x as i32,
        y: y as i32,
        z: z as i32,
    }
}

// The passing root edited, and then released, also after a refusal.
fn next(
    a: Arena,
    kids: &mut [u64],
    facts: &mut [u32],
    find: &mut [u16],
    root: BlockId,
    depth: u32,
    position: IVec3,
    value: u16,
) -> Made
    ensures { Fair cube_kids deepest (before a kids.old facts.old find.old)
        → made a result kids.new facts.new find.new ≡ next_of (before a kids.old facts.old find.old) root.0 depth position value }
{
    let answer = edit::set_voxel(a, kids, facts, find, root, depth, position, value);
    let edited = Arena {
        capacity: a.capacity,
        slots: answer.slots,
    };
    let released = arena_release::release(edited, kids, facts, find, root);
    Made {
        no: answer.no,
        id: answer.id,
        slots: released.slots,
    }
}

// From an answer on, in an arena of so many slots: while it is accepted, the `more` cells from x on, each passing root released after the next is made.
fn onward(
    capacity: usize,
    first: Made,
    kids: &mut [u64],
    facts: &mut [u32],
    find: &mut [u16],
    depth: u32,
    y: u16,
    z: u16,
    x: u32,
    more: u32,
    value: u16,
) -> Made
    requires { x + more < 2 ^ 31 }
    ensures { Fair cube_kids deepest (before_in (state_in capacity first.slots) kids.old facts.old find.old)
        → made_of capacity result kids.new facts.new find.new ≡ on_of depth y z value (made_of capacity first kids.old facts.old find.old) x more }
{
    let mut last = first;
    for i in 0..more {
        if last.no != 0 {
            return last;
        }
        let state = Arena {
            capacity,
            slots: last.slots,
        };
        let position = cell(x + i, y, z);
        last = next(state, kids, facts, find, last.id, depth, position, value);
    }
    last
}

// The root with the cells from x to x + more at y and z set to the value, or the refusal of the first edit that is refused. The root is not used up;
// the answer has one new hold, none for EMPTY.
pub fn set_bar(
    arena: Arena,
    kids: &mut [u64],
    facts: &mut [u32],
    find: &mut [u16],
    root: BlockId,
    depth: u32,
    y: u16,
    z: u16,
    x: u16,
    more: u16,
    value: u16,
) -> Made
    ensures { Fair cube_kids deepest (before arena kids.old facts.old find.old)
        → made arena result kids.new facts.new find.new ≡ bar_of (before arena kids.old facts.old find.old) root.0 depth y z x more value }
{
    let position = cell(x as u32, y, z);
    let first = edit::set_voxel(arena, kids, facts, find, root, depth, position, value);
    onward(
        arena.capacity,
        first,
        kids,
        facts,
        find,
        depth,
        y,
        z,
        x as u32 + 1,
        more as u32,
        value,
    )
}
