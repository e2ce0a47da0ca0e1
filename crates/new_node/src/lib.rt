// A new node: a free slot, a leaf's id in it, and the node written and named. Intern leaf, intern branch and the edit all make their nodes with these.
#![tactic(auto)]

ghost use Rattle.std.specs.Prelude.{◌≡◌, List, ℕ, ◌%◌, ◌^◌};
ghost use Rattle.ids.specs.Ids.{generation_of, new_leaf};
ghost use Rattle.nodes.specs.Words.{fact_of};
ghost use Rattle.arena.specs.Calls.{made_of, free_slots, fresh_slot, given_by};
ghost use Rattle.arena.specs.Lent.{before, made};
ghost use Rattle.arena.specs.Models.{more_of, leaf_fresh, branch_with};
ghost use Rattle.arena.specs.Tables.{state_in, state_of, tables};

use arena::{Arena, Made, freed_in, live, more, next_in, slots_of};
use basics::Kids;
use find::put_cell;
use ids::BlockId;
use new_id::branch_with;
use nodes::{ENTRY, fact, own};
use nodes_write::{put_children, put_facts};

// How many slots are free.
pub fn free_slots(a: Arena) -> u64
    ensures { result ≡ free_slots (state_of a) }
{
    let capacity = a.capacity as u64;
    capacity.saturating_sub(1).saturating_sub(live(a))
}

// Fresh slot: the last one freed, else the lowest never used.
#[tactic(auto, unfolding(arena::specs::Calls::fresh_slot))]
pub fn fresh_slot(a: Arena, facts: &[u32]) -> usize
    ensures { result ≡ fresh_slot (state_of a) (fact_of facts.now) }
{
    let freed = freed_in(a.slots);
    if freed == 0 {
        return next_in(a.slots) as usize;
    }
    fact(facts, (freed - 1) as usize, ENTRY) as usize
}

// `slots` once the fresh slot is given out.
fn give(slots: u64) -> u64
    ensures { (c : ℕ) → state_in c result ≡ given_by more_of (state_in c slots) }
{
    let next = next_in(slots);
    let freed = freed_in(slots);
    if freed == 0 {
        return slots_of(more(next), 0);
    }
    slots_of(next, freed - 1)
}

// The id of a leaf in slot s, whose own word is `o`.
pub fn leaf_id(s: usize, o: u64) -> u64
    ensures { result ≡ new_leaf (s % 2 ^ 32) (generation_of o) }
{
    let id = BlockId::new_leaf((s % 0x1_0000_0000) as u32, BlockId(o).generation());
    id.0
}

// A fresh leaf of value v, whose hash is k. A free slot has no children, so that none are written.
pub fn fresh_leaf(
    a: Arena,
    facts: &mut [u32],
    find: &mut [u16],
    at: usize,
    v: u32,
    k: u32,
    h: u32,
    q: u32,
) -> Made
    ensures { (j : List ℕ) → made_of a.capacity result j facts.new find.new ≡ leaf_fresh (tables (state_of a) j facts.old find.old) v k h q at }
{
    let s = fresh_slot(a, facts);
    let id = leaf_id(s, own(facts, s));
    put_facts(facts, s, id, v, 0, 0, k, h, q, 0);
    put_cell(find, at, s);
    Made::done(BlockId(id), give(a.slots))
}

// A fresh branch of the children ks, with the two bytes of these, the stored value v and the height up, the sum and the hash k.
pub fn fresh_branch(
    a: Arena,
    kids: &mut [u64],
    facts: &mut [u32],
    find: &mut [u16],
    at: usize,
    ks: Kids,
    types: u8,
    mask: u8,
    v: u32,
    up: u32,
    sum: u32,
    k: u32,
    h: u32,
    q: u32,
) -> Made
    ensures { made a result kids.new facts.new find.new ≡ branch_with (before a kids.old facts.old find.old) ks types mask v up sum k h q at }
{
    let s = fresh_slot(a, facts);
    let id = branch_with(types, mask, s, own(facts, s));
    put_children(kids, s, ks);
    put_facts(facts, s, id, v, up, sum, k, h, q, 0);
    put_cell(find, at, s);
    Made::done(BlockId(id), give(a.slots))
}
