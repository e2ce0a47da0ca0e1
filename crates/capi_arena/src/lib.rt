// The arena for C and Rust: each function calls the one of its name in the crates `arena_hold`, `arena_leaf`, `arena_branch` and `arena_release`, and its contract
// cites the same definition. A slice goes as its address and its length, an id as its raw number, eight ids as a struct that holds them.
#![tactic(auto)]

ghost use Rattle.std.specs.Prelude.{◌≡◌, ℕ, ◌≤◌};
ghost use Rattle.basics.specs.Limits.{deepest, cube_kids, kid_words};
ghost use Rattle.arena.specs.Calls.{answered_of, counted, counted_as, Fair, raw_ids, fresh_of, intern_leaf_of, intern_branch_of, hold_of, release_of, counts_of};
ghost use Rattle.arena.specs.Lent.{before, made, answered};

use arena::{Answer, Arena, Counted, Counts, Made};
use basics::{KID_WORDS, Refusal};
use ids::BlockId;

// The eight child ids of a branch. An array alone can't be passed.
#[repr(C)]
#[derive(Clone, Copy)]
pub struct Children {
    pub ids: [BlockId; KID_WORDS],
}

// The counts, or the number of the refusal with counts 0, as C reads them.
fn counted(answer: Result<Counts, Refusal>) -> Counted
    ensures { counted result ≡ counted_as answer }
{
    match answer {
        Ok(Counts { holds, places }) => Counted {
            no: 0,
            holds,
            places,
        },
        Err(refusal) => Counted {
            no: u32::from(refusal),
            holds: 0,
            places: 0,
        },
    }
}

pub fn fenpiling_fresh(
    capacity: usize,
    kids: &mut [u64],
    facts: &mut [u32],
    find: &mut [u16],
) -> Answer
    ensures { answered_of capacity result kids.new facts.new find.new ≡ fresh_of capacity kids.old facts.old find.old }
{
    arena_hold::fresh(capacity, kids, facts, find)
}

pub fn fenpiling_intern_leaf(
    arena: Arena,
    kids: &mut [u64],
    facts: &mut [u32],
    find: &mut [u16],
    value: u16,
) -> Made
    ensures { (n tallest : ℕ) → n ≤ kid_words → Fair n tallest (before arena kids.old facts.old find.old) → made arena result kids.new facts.new find.new ≡ intern_leaf_of (before arena kids.old facts.old find.old) value }
{
    arena_leaf::intern_leaf(arena, kids, facts, find, value)
}

pub fn fenpiling_intern_branch(
    arena: Arena,
    kids: &mut [u64],
    facts: &mut [u32],
    find: &mut [u16],
    children: Children,
) -> Made
    ensures { Fair cube_kids deepest (before arena kids.old facts.old find.old) → made arena result kids.new facts.new find.new ≡ intern_branch_of cube_kids deepest (before arena kids.old facts.old find.old) (raw_ids children.ids) }
{
    let ids = children.ids;
    arena_branch::intern_branch(arena, kids, facts, find, ids)
}

pub fn fenpiling_hold(
    arena: Arena,
    kids: &[u64],
    facts: &mut [u32],
    find: &[u16],
    id: u64,
) -> Answer
    ensures { answered arena result kids.now facts.new find.now ≡ hold_of (before arena kids.now facts.old find.now) id }
{
    arena_hold::hold(arena, kids, facts, find, BlockId(id))
}

pub fn fenpiling_release(
    arena: Arena,
    kids: &mut [u64],
    facts: &mut [u32],
    find: &mut [u16],
    id: u64,
) -> Answer
    ensures { (n tallest : ℕ) → n ≤ kid_words → tallest ≤ deepest → Fair n tallest (before arena kids.old facts.old find.old) → answered arena result kids.new facts.new find.new ≡ release_of tallest (before arena kids.old facts.old find.old) id }
{
    arena_release::release(arena, kids, facts, find, BlockId(id))
}

pub fn fenpiling_counts(arena: Arena, kids: &[u64], facts: &[u32], find: &[u16], id: u64) -> Counted
    ensures { counted result ≡ counts_of (before arena kids.now facts.now find.now) id }
{
    counted(arena_hold::counts(arena.seen(kids, facts, find), BlockId(id)))
}
