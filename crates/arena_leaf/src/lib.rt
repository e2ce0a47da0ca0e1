// Intern leaf: the live leaf of a value if there is one, else a fresh one. What it answers and leaves is in the crate arena's specs/Calls.antt.
#![tactic(auto)]

ghost use Rattle.std.specs.Prelude.{◌≡◌, List, ℕ, ◌≤◌};
ghost use Rattle.basics.specs.Limits.{kid_words};
ghost use Rattle.find_hash.specs.Hash.{leaf_hash};
ghost use Rattle.arena.specs.Calls.{made_of, Fair, intern_leaf_of};
ghost use Rattle.arena.specs.Models.{leaf_miss_by, leaf_at, leaf_by, intern_leaf_by};
ghost use Rattle.arena.specs.Tables.{state_of, tables};
ghost use Rattle.arena.specs.Lent.{before, made};

use arena::{Arena, Made, fit, hit};
use basics::Refusal;
use find::search_leaf;
use find_hash::leaf_hash;
use new_node::{free_slots, fresh_leaf};

// A fresh leaf, named in the cell `at`; refusal 11 where no slot is free.
#[tactic(auto, unfolding(arena::specs::Models::leaf_miss_by, arena::specs::Calls::room_of))]
fn leaf_miss(a: Arena, facts: &mut [u32], find: &mut [u16], v: u32, k: u32, at: usize) -> Made
    requires { k ≡ leaf_hash v }
    ensures { (j : List ℕ) → made_of a.capacity result j facts.new find.new ≡ leaf_miss_by (tables (state_of a) j facts.old find.old) v at }
{
    if free_slots(a) == 0 {
        return Made::refused(Refusal::Full, a.slots);
    }
    fresh_leaf(a, facts, find, at, v, k, 1, 0)
}

// The leaf of value v, whose hash is k, once the search has ended at the cell `at`, which names s.
#[tactic(auto, unfolding(arena::specs::Models::leaf_at))]
fn leaf_at(
    a: Arena,
    facts: &mut [u32],
    find: &mut [u16],
    v: u32,
    k: u32,
    s: usize,
    at: usize,
) -> Made
    requires { k ≡ leaf_hash v }
    ensures { (j : List ℕ) → made_of a.capacity result j facts.new find.new ≡ leaf_at (tables (state_of a) j facts.old find.old) v s at }
{
    if s == 0 {
        return leaf_miss(a, facts, find, v, k, at);
    }
    hit(a, facts, s)
}

// The leaf of value v: the live node if there is one, else a fresh one. No leaf has children, so that their table is not needed.
#[tactic(auto, using(find::proofs::Contents::leaf_facts), unfolding(arena::specs::Models::leaf_by))]
fn leaf(a: Arena, facts: &mut [u32], find: &mut [u16], v: u32) -> Made
    ensures { (j : List ℕ) → made_of a.capacity result j facts.new find.new ≡ leaf_by (tables (state_of a) j facts.old find.old) v }
{
    let k = leaf_hash(v);
    let f = search_leaf(find, facts, a.capacity, k, v);
    leaf_at(a, facts, find, v, k, f.slot, f.cell)
}

// Intern leaf on any tables.
#[tactic(auto, unfolding(arena::specs::Models::intern_leaf_by))]
fn leaf_any(a: Arena, kids: &mut [u64], facts: &mut [u32], find: &mut [u16], value: u16) -> Made
    ensures { made a result kids.new facts.new find.new ≡ intern_leaf_by (before a kids.old facts.old find.old) value }
{
    if !fit(a.capacity, kids.len(), facts.len(), find.len()) {
        return Made::refused(Refusal::Size, a.slots);
    }
    if value == 0 {
        return Made::refused(Refusal::ZeroLeaf, a.slots);
    }
    leaf(a, facts, find, value as u32)
}

// Intern leaf: the live node of that value if there is one, else a fresh one; the caller gets one hold.
pub fn intern_leaf(
    arena: Arena,
    kids: &mut [u64],
    facts: &mut [u32],
    find: &mut [u16],
    value: u16,
) -> Made
    ensures { (n tallest : ℕ) → n ≤ kid_words → Fair n tallest (before arena kids.old facts.old find.old) → made arena result kids.new facts.new find.new ≡ intern_leaf_of (before arena kids.old facts.old find.old) value }
{
    leaf_any(arena, kids, facts, find, value)
}
