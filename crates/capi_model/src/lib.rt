// Whole models for C and Rust: the arena check, lookup, expansion and the edit. Each function calls the one it stands for in the crates `check_arena`,
// `read_cell`, `read_cube` and `edit`, and its contract cites the same definition. A slice goes as its address and its length, an id as its raw number.
#![tactic(auto)]

ghost use Rattle.std.specs.Prelude.{◌≡◌, true, ◌↔◌};
ghost use Rattle.basics.specs.Limits.{deepest, cube_kids};
ghost use Rattle.basics.specs.Refusals.{no_of};
ghost use Rattle.arena.specs.Tables.{WellFormed};
ghost use Rattle.arena.specs.Calls.{Fair};
ghost use Rattle.arena.specs.Lent.{before, made};
ghost use Rattle.read_cell.specs.Calls.{looked_as, look_of, expanded, expand_of};
ghost use Rattle.edit.specs.Edit.{edit_of};

use arena::{Arena, Made};
use basics::Refusal;
use ids::BlockId;
use paths::IVec3;
use read_cell::Looked;

// A value, or the number of the refusal with value 0, as C reads it.
fn looked(answer: Result<u16, Refusal>) -> Looked
    ensures { result ≡ looked_as answer }
{
    match answer {
        Ok(value) => Looked { no: 0, value },
        Err(refusal) => Looked {
            no: u32::from(refusal),
            value: 0,
        },
    }
}

// The number of the refusal, or 0.
fn number(answer: Result<(), Refusal>) -> u32
    ensures { result ≡ no_of answer }
{
    match answer {
        Ok(()) => 0,
        Err(refusal) => u32::from(refusal),
    }
}

pub fn fenpiling_check(arena: Arena, kids: &[u64], facts: &mut [u32], find: &[u16]) -> bool
    ensures { ((result ≡ true) ↔ WellFormed cube_kids deepest (before arena kids.now facts.old find.now)) × (facts.new ≡ facts.old) }
{
    check_arena::check_arena(arena, kids, facts, find)
}

pub fn fenpiling_get_at_depth(
    arena: Arena,
    kids: &[u64],
    facts: &[u32],
    find: &[u16],
    id: u64,
    depth: u32,
    position: IVec3,
) -> Looked
    ensures { result ≡ look_of (before arena kids.now facts.now find.now) id depth position }
{
    let seen = arena.seen(kids, facts, find);
    looked(read_cell::get_at_depth(seen, BlockId(id), depth, position))
}

pub fn fenpiling_to_vec(
    arena: Arena,
    kids: &[u64],
    facts: &[u32],
    find: &[u16],
    id: u64,
    depth: u32,
    cube: &mut [u16],
) -> u32
    ensures { expanded result cube.new ≡ expand_of (before arena kids.now facts.now find.now) id depth cube.old }
{
    let seen = arena.seen(kids, facts, find);
    number(read_cube::to_vec(seen, BlockId(id), depth, cube))
}

pub fn fenpiling_set_voxel(
    arena: Arena,
    kids: &mut [u64],
    facts: &mut [u32],
    find: &mut [u16],
    root: u64,
    depth: u32,
    position: IVec3,
    value: u16,
) -> Made
    ensures { Fair cube_kids deepest (before arena kids.old facts.old find.old) → made arena result kids.new facts.new find.new ≡ edit_of (before arena kids.old facts.old find.old) root depth position value }
{
    edit::set_voxel(
        arena,
        kids,
        facts,
        find,
        BlockId(root),
        depth,
        position,
        value,
    )
}
