// Reading: the end that a cell's path leads to, and lookup.
#![tactic(auto)]

ghost use Rattle.std.specs.Prelude.{◌≡◌, ◌%◌, ◌^◌, ◌≤◌, eqb, ltb};
ghost use Rattle.basics.specs.Limits.{deepest};
ghost use Rattle.basics.specs.Pick.{pick};
ghost use Rattle.basics.specs.Refusals.{no_of};
ghost use Rattle.nodes.specs.Words.{kid_of, fact_of};
ghost use Rattle.arena.specs.Seen.{seen_in};
ghost use Rattle.read_cell.specs.Reading.{end_of};
ghost use Rattle.read_cell.specs.Calls.{looked_as, look_of};
ghost use Rattle.read_cell.specs.Models.{val, look_no_at, look_at};

use arena::{Seen, fit, is_live_or_empty, slot_of};
use basics::{DEEPEST, Refusal};
use ids::{BlockId, LOWEST_LEAF};
use nodes::{VALUE, fact, kid, stored};
use paths::{Cell, IVec3, octant, to_cell};

// Where a path ended: the id reached, and its level.
#[derive(Clone, Copy)]
pub struct End {
    pub id: BlockId,
    pub level: u32,
}

// The answer of lookup for C.
// Kept: C reads the number beside the value.
#[repr(C)]
#[derive(Clone, Copy)]
pub struct Looked {
    pub no: u32,
    pub value: u16,
}

// ---- ids

// What is stored for the id, in 16 bits; EMPTY has 0.
fn shown(id: u64, stored: u32) -> u16
    ensures { result ≡ pick (eqb id 0) 0 (stored % 2 ^ 16) }
{
    let low = (stored % 0x1_0000) as u16;
    if id == BlockId::EMPTY.0 {
        return 0;
    }
    low
}

// The value of an id, for a reader of many values: how many rows the table has is worked out once for all of them.
pub fn value(facts: &[u32], id: u64) -> u16
    ensures { result ≡ val (fact_of facts.now) id }
{
    shown(id, stored(facts, slot_of(id)))
}

// The same for a reader of one value: nothing is worked out that pays only with more of them.
// Kept: both, since with one of them in both places lookup or expansion is slower (docs/DECISIONS.md).
fn value_once(facts: &[u32], id: u64) -> u16
    ensures { result ≡ val (fact_of facts.now) id }
{
    shown(id, fact(facts, slot_of(id), VALUE))
}

// ---- down a path

// Down from id, as level 0, to the cell: until EMPTY, a leaf, or the level of its depth. INVALID of a depth above 6.
#[tactic(auto, using(crate::proofs::Walk::walk_none, crate::proofs::Walk::walk_stop, crate::proofs::Walk::walk_on), unfolding(ids::specs::Ids::is_end))]
pub fn descend(kids: &[u64], id: BlockId, cell: Cell) -> End
    ensures { result ≡ end_of (kid_of kids.now) id.0 cell }
{
    if DEEPEST < cell.depth {
        return End {
            id: BlockId::INVALID,
            level: 0,
        };
    }
    let mut at = id;
    for level in 0..cell.depth {
        if at.is_end() {
            return End { id: at, level };
        }
        let left = cell.depth - 1 - level;
        at = BlockId(kid(kids, slot_of(at.0), octant(left, cell.x, cell.y, cell.z)));
    }
    End {
        id: at,
        level: cell.depth,
    }
}

// ---- refusals

// Is x below 2^d?
fn is_inside(d: u32, x: u32) -> bool
    requires { d ≤ deepest }
    ensures { result ≡ ltb x (2 ^ d) }
{
    x < 1u32 << d
}

// ---- lookup

// Refuses a lookup by the lowest refusal that applies.
pub fn may_look(seen: Seen<'_>, id: u64, cell: Cell) -> Result<(), Refusal>
    ensures { no_of result ≡ look_no_at (seen_in seen.entry) id cell }
{
    if !fit(
        seen.capacity,
        seen.kids.len(),
        seen.facts.len(),
        seen.find.len(),
    ) {
        return Err(Refusal::Size);
    }
    if cell.depth > DEEPEST {
        return Err(Refusal::Depth);
    }
    if !is_inside(cell.depth, cell.x | cell.y | cell.z) {
        return Err(Refusal::Position);
    }
    if !is_live_or_empty(seen.capacity, seen.facts, id) {
        return Err(Refusal::NotLive);
    }
    Ok(())
}

// Lookup of a cell.
fn look_at(seen: Seen<'_>, id: BlockId, cell: Cell) -> Result<u16, Refusal>
    ensures { looked_as result ≡ look_at (seen_in seen.entry) id.0 cell }
{
    may_look(seen, id.0, cell)?;
    let end = descend(seen.kids, id, cell);
    Ok(value_once(seen.facts, end.id.0))
}

// The value at a cell of a cube of the depth under id, or a refusal: 1, 2, 3 or 4.
pub fn get_at_depth(
    seen: Seen<'_>,
    id: BlockId,
    depth: u32,
    position: IVec3,
) -> Result<u16, Refusal>
    ensures { looked_as result ≡ look_of (seen_in seen.entry) id.0 depth position }
{
    look_at(seen, id, to_cell(position, depth))
}
