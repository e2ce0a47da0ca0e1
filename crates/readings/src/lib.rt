// Readings in metres entered into a model: a shot is an edit, a bar the edits of its cells in rising order, a pause a hold on the old root. What the call
// answers and leaves: specs/Enter.antt. What a record says: crate `metres`; the bar: crate `bars`.
#![tactic(auto)]

ghost use Rattle.std.specs.Prelude.{◌≡◌, Ok};
ghost use Rattle.basics.specs.Limits.{deepest, cube_kids};
ghost use Rattle.arena.specs.Calls.{Fair};
ghost use Rattle.arena.specs.Lent.{before, made};
ghost use Rattle.readings.specs.Enter.{pause_of, asked_of, enter_of};
ghost use Rattle.readings.specs.Models.{Rising};

use arena::{Arena, Made, fit};
use basics::Refusal;
use ids::BlockId;
use metres::{Cells, aim_of};

// The answer of a pause: the old root with one new hold.
fn hold_root(
    arena: Arena,
    kids: &mut [u64],
    facts: &mut [u32],
    find: &mut [u16],
    root: BlockId,
) -> Made
    ensures { made arena result kids.new facts.new find.new ≡ pause_of (before arena kids.old facts.old find.old) root.0 }
{
    let held = arena_hold::hold(arena, kids, facts, find, root);
    let id = if held.no == 0 { root } else { BlockId::INVALID };
    Made {
        no: held.no,
        id,
        slots: held.slots,
    }
}

// What an accepted record asks for, done.
fn act(
    arena: Arena,
    kids: &mut [u64],
    facts: &mut [u32],
    find: &mut [u16],
    root: BlockId,
    depth: u32,
    aim: Option<Cells>,
) -> Made
    requires { Rising (Ok aim) }
    ensures { Fair cube_kids deepest (before arena kids.old facts.old find.old)
        → made arena result kids.new facts.new find.new ≡ asked_of (before arena kids.old facts.old find.old) root.0 depth (Ok aim) }
{
    match aim {
        None => hold_root(arena, kids, facts, find, root),
        Some(cells) => bars::set_bar(
            arena,
            kids,
            facts,
            find,
            root,
            depth,
            cells.y,
            cells.z,
            cells.first,
            cells.last - cells.first,
            cells.value,
        ),
    }
}

// The root with the reading of a 40-byte record entered, with an edge of 2^-k metres, or a refusal, the first that applies of 1, 2, 13, 14, 3, 4, 8, 10 and
// 11. The root is not used up; the answer has one new hold, none for EMPTY. A pause answers the root itself. A bar that is refused on its way leaves live
// nodes and counts as they were.
pub fn enter_reading(
    arena: Arena,
    kids: &mut [u64],
    facts: &mut [u32],
    find: &mut [u16],
    root: BlockId,
    depth: u32,
    k: u32,
    bytes: &[u8],
) -> Made
    ensures { Fair cube_kids deepest (before arena kids.old facts.old find.old)
        → made arena result kids.new facts.new find.new ≡ enter_of (before arena kids.old facts.old find.old) root.0 depth k bytes.now }
{
    if !fit(arena.capacity, kids.len(), facts.len(), find.len()) {
        return Made {
            no: u32::from(Refusal::Size),
            id: BlockId::INVALID,
            slots: arena.slots,
        };
    }
    match aim_of(bytes, k, depth) {
        Ok(aim) => act(arena, kids, facts, find, root, depth, aim),
        Err(refusal) => Made {
            no: u32::from(refusal),
            id: BlockId::INVALID,
            slots: arena.slots,
        },
    }
}
