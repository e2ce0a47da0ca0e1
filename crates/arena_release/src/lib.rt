// Release: takes one hold, and recycles what has neither hold nor place. What it answers and leaves is in the crate arena's specs/Calls.antt.
#![tactic(auto)]

ghost use Rattle.std.specs.Prelude.{◌≡◌, List, ℕ, ◌+◌, ◌*◌, ◌%◌, ◌^◌, ◌≤◌};
ghost use Rattle.basics.specs.Limits.{deepest, kid_words};
ghost use Rattle.basics.specs.Refusals.{no_of};
ghost use Rattle.ids.specs.Ids.{generation_of};
ghost use Rattle.nodes.specs.Words.{own as own_word, entry as entry_word, fact_of, fact_put, facts_put};
ghost use Rattle.arena.specs.Calls.{Fair, did, dead_facts, each, release_of};
ghost use Rattle.arena.specs.Models.{gone_by, drop_place, recycled_by, release_by, release_any};
ghost use Rattle.arena.specs.Node.{next_generation};
ghost use Rattle.arena.specs.Tables.{state_in, tables};
ghost use Rattle.arena.specs.Lent.{before, before_in, after_in, answered};
ghost use Rattle.arena_release.specs.Drop.{took, take_of, drop_slot, slots_after};

use arena::{Answer, Arena, freed_in, may_name, more, next_in, settle, slot_of, slots_of};
use basics::{Kids, LAST_GENERATION, NO_KIDS, Refusal, TALLEST};
use find_remove::remove_slot;
use ids::BlockId;
use nodes::{ENTRY, HEIGHT, HOLDS, PLACES, children, fact, own};
use nodes_write::{put_children, put_fact, put_facts};

// A node with so many holds loses its last one.
const LAST_HOLD: u32 = 1;

// The own word of a recycled slot: the generation one higher, or 0 where that would reach 0x7FFE.
#[tactic(auto, unfolding(arena::specs::Node::next_generation))]
fn next_own(o: u64) -> u64
    ensures { result ≡ next_generation (generation_of o) * 2 ^ 32 }
{
    let g = BlockId(o).generation();
    if g < LAST_GENERATION {
        return (g as u64 + 1) * 0x1_0000_0000;
    }
    0
}

// Clears the facts of slot s, its generation one higher, and puts it on the stack of freed slots, which has `freed` of them.
#[tactic(auto, unfolding(arena::specs::Calls::dead_facts))]
fn clear_slot(facts: &mut [u32], s: usize, freed: u32)
    ensures { facts.new ≡ fact_put (facts_put facts.old s (dead_facts (fact_of facts.old s own_word) freed)) freed entry_word (s % 2 ^ 32) }
{
    let o = next_own(own(facts, s));
    put_facts(facts, s, o, 0, 0, 0, 0, 0, 0, freed);
    put_fact(facts, freed as usize, ENTRY, (s % 0x1_0000_0000) as u32);
}

// Clears slot s but for its children and puts it on top of the freed ones; the finding table no longer names it. Answers `slots` then.
#[tactic(auto, unfolding(arena::specs::Models::recycled_by, nodes::specs::Words::word_of, find::specs::Content::home_at))]
fn recycle(capacity: usize, slots: u64, facts: &mut [u32], find: &mut [u16], s: usize) -> u64
    ensures { (j : List ℕ) → tables (state_in capacity result) j facts.new find.new ≡ recycled_by (tables (state_in capacity slots) j facts.old find.old) s }
{
    let freed = freed_in(slots);
    remove_slot(find, facts, capacity, s);
    clear_slot(facts, s, freed);
    slots_of(next_in(slots), more(freed))
}

// Takes one place from the node of `id`, unless that leaves it neither a hold nor a place: then the answer is true, and nothing is written. EMPTY: nothing.
#[tactic(auto, using(crate::proofs::Dropping::taking))]
fn take_place_unless_last(facts: &mut [u32], id: u64) -> bool
    ensures { took result facts.new ≡ take_of facts.old id }
{
    if id == BlockId::EMPTY.0 {
        return false;
    }
    let s = slot_of(id);
    let p = fact(facts, s, PLACES);
    if 1 < p {
        put_fact(facts, s, PLACES, p - 1);
        return false;
    }
    if fact(facts, s, HOLDS) == 0 {
        return true;
    }
    put_fact(facts, s, PLACES, 0);
    false
}

// Recycles slot s, and drops its children in turn, `levels` levels down at most; a leaf, which has height 0, has none. Answers `slots` then.
#[cycle(drop_all_drop_slot)]
fn drop_slot(
    capacity: usize,
    slots: u64,
    kids: &mut [u64],
    facts: &mut [u32],
    find: &mut [u16],
    s: usize,
    levels: u32,
) -> u64
    ensures { after_in (state_in capacity result) kids.new facts.new find.new ≡ drop_slot levels (before_in (state_in capacity slots) kids.old facts.old find.old) s }
{
    let up = fact(facts, s, HEIGHT);
    let gone = recycle(capacity, slots, facts, find, s);
    if up == 0 {
        return gone;
    }
    let below = children(kids, s);
    put_children(kids, s, NO_KIDS);
    if levels == 0 {
        return gone;
    }
    drop_all(capacity, gone, kids, facts, find, below, levels - 1)
}

// Takes one place from each of the eight ids, and recycles what is left without any, with what is `levels` levels below it: each completely before the next.
#[cycle(drop_all_drop_slot)]
fn drop_all(
    capacity: usize,
    slots: u64,
    kids: &mut [u64],
    facts: &mut [u32],
    find: &mut [u16],
    ids: Kids,
    levels: u32,
) -> u64
    ensures { after_in (state_in capacity result) kids.new facts.new find.new ≡ each (drop_place gone_by (levels + 1)) (before_in (state_in capacity slots) kids.old facts.old find.old) ids }
{
    let mut gone = slots;
    for id in ids {
        if take_place_unless_last(facts, id) {
            gone = drop_slot(capacity, gone, kids, facts, find, slot_of(id), levels);
        }
    }
    gone
}

// Takes one hold from the node of `id`. No node is taller than TALLEST. Answers `slots` then.
fn take_hold(
    capacity: usize,
    slots: u64,
    kids: &mut [u64],
    facts: &mut [u32],
    find: &mut [u16],
    id: u64,
) -> u64
    ensures { after_in (state_in capacity result) kids.new facts.new find.new ≡ release_by deepest (before_in (state_in capacity slots) kids.old facts.old find.old) id }
{
    let s = slot_of(id);
    settle(facts, s);
    if take_place_unless_last(facts, id) {
        return drop_slot(capacity, slots, kids, facts, find, s, TALLEST);
    }
    slots
}

// Release on any tables. Refusals 1, 4 and 5; EMPTY: nothing. Where another hold is left the node stays, whatever its places. Answers `slots` then.
fn release_any(
    a: Arena,
    kids: &mut [u64],
    facts: &mut [u32],
    find: &mut [u16],
    id: u64,
) -> Result<u64, Refusal>
    ensures { did (no_of result) (after_in (state_in a.capacity (slots_after a.slots result)) kids.new facts.new find.new) ≡ release_any deepest (before a kids.old facts.old find.old) id }
{
    may_name(a.seen(kids, facts, find), id)?;
    if id == BlockId::EMPTY.0 {
        return Ok(a.slots);
    }
    let s = slot_of(id);
    let h = fact(facts, s, HOLDS);
    if h == 0 {
        return Err(Refusal::FewHolds);
    }
    if LAST_HOLD < h {
        put_fact(facts, s, HOLDS, h - 1);
        return Ok(a.slots);
    }
    Ok(take_hold(a.capacity, a.slots, kids, facts, find, id))
}

// Release: takes one hold. A node with both counts 0 is recycled, and then its children are released, each completely before the next.
pub fn release(
    arena: Arena,
    kids: &mut [u64],
    facts: &mut [u32],
    find: &mut [u16],
    id: BlockId,
) -> Answer
    ensures { (n tallest : ℕ) → n ≤ kid_words → tallest ≤ deepest → Fair n tallest (before arena kids.old facts.old find.old) → answered arena result kids.new facts.new find.new ≡ release_of tallest (before arena kids.old facts.old find.old) id.0 }
{
    match release_any(arena, kids, facts, find, id.0) {
        Ok(slots) => Answer::done(slots),
        Err(refusal) => Answer::refused(refusal, arena.slots),
    }
}
