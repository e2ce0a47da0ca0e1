// The arena: its state, which goes by value beside three lent tables, `kids` and `facts` with the nodes (crate nodes) and `find`, which says what
// slot has a content (crate find); and what the calls on it share. What each call answers and leaves is in specs/Calls.antt; a fresh arena, hold
// and counts are in the crate arena_hold, intern leaf in arena_leaf, intern branch in arena_branch, release in arena_release.
#![tactic(auto)]

ghost use Rattle.std.specs.Prelude.{◌≡◌, List, ℕ, ◌-◌};
ghost use Rattle.basics.specs.Refusals.{number, no_of};
ghost use Rattle.ids.specs.Ids.{invalid};
ghost use Rattle.nodes.specs.Words.{holds as holds_word, places as places_word, fact_of, fact_put, slot};
ghost use Rattle.arena.specs.Calls.{made_of, each, fit_of, live_of, live_or_empty, all_live, none_of, there_no};
ghost use Rattle.arena.specs.Seen.{Shows, seen_in};
ghost use Rattle.arena.specs.Models.{more_of, bumped, hit_by};
ghost use Rattle.arena.specs.Tables.{live_in, next_in, freed_in, state_of, tables};

use basics::{
    FACT_WORDS, KID_WORDS, Kids, LEAST_SLOTS, MOST_HOLDS, MOST_SLOTS, Refusal, SLOT_CELLS,
};
use ids::BlockId;
use nodes::{FLOOR, HOLDS, PLACES, fact, own};
use nodes_write::put_fact;

// An arena's state: how many slots its tables have; and in one word the lowest slot never given out, in its low half, and how many are freed, in its high half.
#[repr(C)]
#[derive(Clone, Copy)]
pub struct Arena {
    pub capacity: usize,
    pub slots: u64,
}

// An arena lent to be read: its state, and its tables.
#[derive(Clone, Copy)]
pub struct Seen<'a> {
    pub capacity: usize,
    pub slots: u64,
    pub kids: &'a [u64],
    pub facts: &'a [u32],
    pub find: &'a [u16],
}

impl Arena {
    // The arena of this state with its tables.
    pub fn seen<'a>(self, kids: &'a [u64], facts: &'a [u32], find: &'a [u16]) -> Seen<'a>
        ensures { Shows result self kids.now facts.now find.now }
    {
        Seen {
            capacity: self.capacity,
            slots: self.slots,
            kids,
            facts,
            find,
        }
    }
}

// The answer of a call that makes a node: refusal number or 0, the node's id, and `slots` of the state afterwards.
// Kept: C reads the number beside the id.
#[repr(C)]
#[derive(Clone, Copy)]
pub struct Made {
    pub no: u32,
    pub id: BlockId,
    pub slots: u64,
}

impl Made {
    // No node.
    pub fn refused(refusal: Refusal, slots: u64) -> Self
        ensures { result ≡ record { no = number refusal; id = record { 0 = invalid }; slots = slots } }
    {
        Made {
            no: u32::from(refusal),
            id: BlockId::INVALID,
            slots,
        }
    }

    // The node of that id.
    pub fn done(id: BlockId, slots: u64) -> Self
        ensures { result ≡ record { no = 0; id = id; slots = slots } }
    {
        Made { no: 0, id, slots }
    }
}

// The answer of a call that answers no id.
// Kept: C reads the number beside `slots`.
#[repr(C)]
#[derive(Clone, Copy)]
pub struct Answer {
    pub no: u32,
    pub slots: u64,
}

impl Answer {
    // The call refuses.
    pub fn refused(refusal: Refusal, slots: u64) -> Self
        ensures { result ≡ record { no = number refusal; slots = slots } }
    {
        let no = u32::from(refusal);
        Answer { no, slots }
    }

    // The call does what it says.
    pub fn done(slots: u64) -> Self
        ensures { result ≡ record { no = 0; slots = slots } }
    {
        Answer { no: 0, slots }
    }
}

// The holds and the places of a node.
#[derive(Clone, Copy)]
pub struct Counts {
    pub holds: u64,
    pub places: u64,
}

// The answer of `counts` for C.
// Kept: C reads the number beside the counts.
#[repr(C)]
#[derive(Clone, Copy)]
pub struct Counted {
    pub no: u32,
    pub holds: u64,
    pub places: u64,
}

// The lowest slot never given out.
#[tactic(auto, unfolding(crate::specs::Tables::next_in))]
pub fn next_in(slots: u64) -> u32
    ensures { result ≡ next_in slots }
{
    (slots % 0x1_0000_0000) as u32
}

// How many slots are freed.
#[tactic(auto, unfolding(crate::specs::Tables::freed_in))]
pub fn freed_in(slots: u64) -> u32
    ensures { result ≡ freed_in slots }
{
    (slots / 0x1_0000_0000) as u32
}

// Both in one word.
#[tactic(auto, unfolding(crate::specs::Tables::next_in, crate::specs::Tables::freed_in))]
pub fn slots_of(next: u32, freed: u32) -> u64
    ensures { (next_in result ≡ next) × (freed_in result ≡ freed) }
{
    next as u64 + 0x1_0000_0000 * freed as u64
}

// How many slots live.
#[tactic(auto, unfolding(crate::specs::Tables::live_in))]
pub fn live(a: Arena) -> u64
    ensures { result ≡ live_in (state_of a) }
{
    let next = next_in(a.slots) as u64;
    let freed = freed_in(a.slots) as u64;
    next.saturating_sub(1).saturating_sub(freed)
}

// One more, running over at 2^32. (No count comes near it.)
#[tactic(auto, unfolding(crate::specs::Models::more_of))]
pub fn more(x: u32) -> u32
    ensures { result ≡ more_of x }
{
    x.wrapping_add(1)
}

// The slot of an id: its index.
#[tactic(auto, unfolding(nodes::specs::Words::slot))]
pub fn slot_of(id: u64) -> usize
    ensures { result ≡ slot id }
{
    BlockId(id).index() as usize
}

// Not refusal 1: capacity and lengths.
#[tactic(auto, unfolding(crate::specs::Calls::fit_of))]
pub fn fit(capacity: usize, kids: usize, facts: usize, find: usize) -> bool
    ensures { result ≡ fit_of capacity kids facts find }
{
    LEAST_SLOTS <= capacity
        && capacity <= MOST_SLOTS
        && kids == KID_WORDS * capacity
        && facts == FACT_WORDS * capacity
        && find == SLOT_CELLS * capacity
}

// Is the id that of a node now in the arena?
#[tactic(auto, unfolding(crate::specs::Calls::live_of, nodes::specs::Words::floor))]
pub fn is_live(capacity: usize, facts: &[u32], id: u64) -> bool
    ensures { result ≡ live_of capacity (fact_of facts.now) id }
{
    let s = slot_of(id);
    s < capacity && FLOOR <= id && own(facts, s) == id
}

// Not refusal 4: EMPTY, or in all 64 bits the id of a node now in the arena.
#[tactic(auto, unfolding(crate::specs::Calls::live_or_empty))]
pub fn is_live_or_empty(capacity: usize, facts: &[u32], id: u64) -> bool
    ensures { result ≡ live_or_empty capacity (fact_of facts.now) id }
{
    id == BlockId::EMPTY.0 || is_live(capacity, facts, id)
}

// Are the eight ids EMPTY, as a leaf's children are?
pub fn all_empty(ids: Kids) -> bool
    ensures { result ≡ none_of ids }
{
    ids.iter().all(|id| BlockId(*id).is_empty())
}

// Refusals 1 and 4 of a call that is handed an id: the tables are not sized, or the id is neither EMPTY nor live.
#[tactic(auto, unfolding(crate::specs::Calls::there_no, crate::specs::Calls::live_or_empty, crate::specs::Calls::live_of, nodes::specs::Words::word_of))]
pub fn may_name(seen: Seen<'_>, id: u64) -> Result<(), Refusal>
    ensures { no_of result ≡ there_no (seen_in seen.entry) id }
{
    if !fit(
        seen.capacity,
        seen.kids.len(),
        seen.facts.len(),
        seen.find.len(),
    ) {
        return Err(Refusal::Size);
    }
    if !is_live_or_empty(seen.capacity, seen.facts, id) {
        return Err(Refusal::NotLive);
    }
    Ok(())
}

// A hold on the node in slot s becomes a place that is owed.
pub fn settle(facts: &mut [u32], s: usize)
    ensures { facts.new ≡ fact_put (fact_put facts.old s holds_word (fact_of facts.old s holds_word - 1)) s places_word (more_of (fact_of facts.old s places_word)) }
{
    let h = fact(facts, s, HOLDS);
    let p = fact(facts, s, PLACES);
    put_fact(facts, s, HOLDS, h.saturating_sub(1));
    put_fact(facts, s, PLACES, more(p));
}

// One more in the fact f of the node of id; EMPTY: nothing.
#[tactic(auto, using(nodes::proofs::Access::put_none), unfolding(crate::specs::Models::bumped))]
pub fn bump(facts: &mut [u32], f: usize, id: u64)
    ensures { facts.new ≡ bumped f facts.old id }
{
    if id == BlockId::EMPTY.0 {
        return;
    }
    let s = slot_of(id);
    put_fact(facts, s, f, more(fact(facts, s, f)));
}

// One more in the fact f of the nodes of the eight ids, once for each.
pub fn bump_all(facts: &mut [u32], f: usize, ids: Kids)
    ensures { facts.new ≡ each (bumped f) facts.old ids }
{
    for id in ids {
        bump(facts, f, id);
    }
}

// One hold more on the node in slot s, which is there already.
pub fn hit(a: Arena, facts: &mut [u32], s: usize) -> Made
    ensures { (k e : List ℕ) → made_of a.capacity result k facts.new e ≡ hit_by (tables (state_of a) k facts.old e) s }
{
    let h = fact(facts, s, HOLDS);
    if MOST_HOLDS <= h {
        return Made::refused(Refusal::ManyHolds, a.slots);
    }
    let id = BlockId(own(facts, s));
    put_fact(facts, s, HOLDS, h + 1);
    Made::done(id, a.slots)
}

// Not refusal 4 of a call that is handed eight ids: is each EMPTY or live?
pub fn all_live(capacity: usize, facts: &[u32], ks: Kids) -> bool
    ensures { result ≡ all_live capacity (fact_of facts.now) ks }
{
    ks.iter().all(|k| is_live_or_empty(capacity, facts, *k))
}
