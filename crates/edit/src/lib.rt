// The edit of one voxel: a dry run that finds what is there already and counts what is not (crate `edit_plan`), and then the making of the rest, leaf
// first and upward (crate `edit_make`). What the call answers and leaves: specs/Edit.antt.
#![tactic(auto)]

ghost use Rattle.std.specs.Prelude.{◌≡◌};
ghost use Rattle.basics.specs.Limits.{deepest, cube_kids};
ghost use Rattle.basics.specs.Refusals.{no_of};
ghost use Rattle.arena.specs.Calls.{Fair};
ghost use Rattle.arena.specs.Lent.{before, made};
ghost use Rattle.arena.specs.Seen.{seen_in};
ghost use Rattle.edit.specs.Edit.{edit_of};
ghost use Rattle.edit.specs.Models.{grant_by, edit_no_at, answer_by, edit_past, edit_by};

use arena::{Arena, Made, Seen, bump, slot_of};
use basics::{MOST_HOLDS, Refusal};
use edit_make::make;
use edit_plan::{Plan, plan_edit};
use edit_way::{Way, way_down};
use ids::BlockId;
use new_node::free_slots;
use new_value::height_at;
use nodes::{HOLDS, fact};
use paths::{Cell, IVec3, to_cell};
use read_cell::may_look;

// Refusals 10 and 11.
fn may_grant(seen: Seen<'_>, p: Plan) -> Result<(), Refusal>
    ensures { no_of result ≡ grant_by (seen_in seen.entry) p }
{
    if p.new != 0 {
        let arena = Arena {
            capacity: seen.capacity,
            slots: seen.slots,
        };
        if free_slots(arena) < p.new as u64 {
            return Err(Refusal::Full);
        }
        return Ok(());
    }
    if p.id != BlockId::EMPTY.0 && MOST_HOLDS <= fact(seen.facts, slot_of(p.id), HOLDS) {
        return Err(Refusal::ManyHolds);
    }
    Ok(())
}

// Refusals 1, 2, 3, 4 and 8, which are told before the dry run.
fn may_edit(seen: Seen<'_>, root: u64, cell: Cell) -> Result<(), Refusal>
    ensures { no_of result ≡ edit_no_at (seen_in seen.entry) root cell }
{
    may_look(seen, root, cell)?;
    if height_at(seen.facts, root) <= cell.depth {
        return Ok(());
    }
    Err(Refusal::Tall)
}

// The answer: a result that is there gets a hold; else it is made.
#[tactic(auto, unfolding(crate::specs::Models::answer_by))]
fn hold_or_make(
    a: Arena,
    kids: &mut [u64],
    facts: &mut [u32],
    find: &mut [u16],
    w: Way,
    depth: u32,
    v: u32,
    p: Plan,
) -> Made
    ensures { made a result kids.new facts.new find.new ≡ answer_by (before a kids.old facts.old find.old) v w depth p }
{
    if p.new == 0 {
        bump(facts, HOLDS, p.id);
        return Made {
            no: 0,
            id: BlockId(p.id),
            slots: a.slots,
        };
    }
    make(a, kids, facts, find, w, depth, v, p)
}

// The edit by its plan, once the refusals before 10 are past.
fn edit_planned(
    a: Arena,
    kids: &mut [u64],
    facts: &mut [u32],
    find: &mut [u16],
    w: Way,
    depth: u32,
    v: u32,
    p: Plan,
) -> Made
    ensures { made a result kids.new facts.new find.new ≡ edit_past (before a kids.old facts.old find.old) v w depth p }
{
    match may_grant(a.seen(kids, facts, find), p) {
        Ok(()) => hold_or_make(a, kids, facts, find, w, depth, v, p),
        Err(refusal) => Made {
            no: u32::from(refusal),
            id: BlockId::INVALID,
            slots: a.slots,
        },
    }
}

// The edit of a cell, on any tables.
fn edit_cell(
    a: Arena,
    kids: &mut [u64],
    facts: &mut [u32],
    find: &mut [u16],
    root: u64,
    cell: Cell,
    v: u16,
) -> Made
    ensures { made a result kids.new facts.new find.new ≡ edit_by (before a kids.old facts.old find.old) root cell v }
{
    match may_edit(a.seen(kids, facts, find), root, cell) {
        Err(refusal) => Made {
            no: u32::from(refusal),
            id: BlockId::INVALID,
            slots: a.slots,
        },
        Ok(()) => {
            let w = way_down(kids, root, cell);
            let p = plan_edit(a.seen(kids, facts, find), root, cell, v, w);
            edit_planned(a, kids, facts, find, w, cell.depth, v as u32, p)
        }
    }
}

// The root with the cell at the position set to the value, or a refusal: 1, 2, 3, 4, 8, 10 or 11. The root is not used up; the answer has one new
// hold, none for EMPTY.
#[tactic(auto, using(crate::proofs::Law::voxel_law))]
pub fn set_voxel(
    arena: Arena,
    kids: &mut [u64],
    facts: &mut [u32],
    find: &mut [u16],
    root: BlockId,
    depth: u32,
    position: IVec3,
    value: u16,
) -> Made
    ensures { Fair cube_kids deepest (before arena kids.old facts.old find.old)
        → made arena result kids.new facts.new find.new ≡ edit_of (before arena kids.old facts.old find.old) root.0 depth position value }
{
    edit_cell(
        arena,
        kids,
        facts,
        find,
        root.0,
        to_cell(position, depth),
        value,
    )
}
