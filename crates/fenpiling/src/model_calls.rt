// Whole models: the arena check, lookup, expansion and the edit.
ghost use Rattle.std.specs.Prelude.{◌≡◌, true, ◌↔◌};
ghost use Rattle.basics.specs.Limits.{deepest, cube_kids};
ghost use Rattle.arena.specs.Tables.{WellFormed};
ghost use Rattle.arena.specs.Calls.{Fair};
ghost use Rattle.arena.specs.Lent.{before, made};
ghost use Rattle.read_cell.specs.Calls.{look_of, expanded, expand_of};
ghost use Rattle.edit.specs.Edit.{edit_of};

use arena::{Arena, Made};
use paths::IVec3;
use read_cell::Looked;

#[unsafe(no_mangle)]
pub extern "C" fn fenpiling_check(
    arena: Arena,
    kids: &[u64],
    facts: &mut [u32],
    find: &[u16],
) -> bool
    ensures { ((result ≡ true) ↔ WellFormed cube_kids deepest (before arena kids.now facts.old find.now)) × (facts.new ≡ facts.old) }
{
    capi_model::fenpiling_check(arena, kids, facts, find)
}

#[unsafe(no_mangle)]
pub extern "C" fn fenpiling_get_at_depth(
    arena: Arena,
    kids: &[u64],
    facts: &[u32],
    find: &[u16],
    id: u64,
    depth: u32,
    position: IVec3,
) -> Looked
    ensures { result ≡ look_of (before arena kids.now facts.now find.now) id depth position }
{
    capi_model::fenpiling_get_at_depth(arena, kids, facts, find, id, depth, position)
}

#[unsafe(no_mangle)]
pub extern "C" fn fenpiling_to_vec(
    arena: Arena,
    kids: &[u64],
    facts: &[u32],
    find: &[u16],
    id: u64,
    depth: u32,
    cube: &mut [u16],
) -> u32
    ensures { expanded result cube.new ≡ expand_of (before arena kids.now facts.now find.now) id depth cube.old }
{
    capi_model::fenpiling_to_vec(arena, kids, facts, find, id, depth, cube)
}

#[unsafe(no_mangle)]
pub extern "C" fn fenpiling_set_voxel(
    arena: Arena,
    kids: &mut [u64],
    facts: &mut [u32],
    find: &mut [u16],
    root: u64,
    depth: u32,
    position: IVec3,
    value: u16,
) -> Made
    ensures { Fair cube_kids deepest (before arena kids.old facts.old find.old) → made arena result kids.new facts.new find.new ≡ edit_of (before arena kids.old facts.old find.old) root depth position value }
{
    capi_model::fenpiling_set_voxel(arena, kids, facts, find, root, depth, position, value)
}
