// The arena check: yes exactly if the lent tables are well formed, on any tables whatever they hold. Each pass takes time linear in the
// capacity, and the first that says no ends the check. See specs/Models.antt.
#![tactic(auto)]

ghost use Rattle.std.specs.Prelude.{◌≡◌, ◌↔◌, true, ◌+◌, leb};
ghost use Rattle.basics.specs.Limits.{deepest, cube_kids, kid_words};
ghost use Rattle.nodes.specs.Words.{kid_of, fact_of, holds, places};
ghost use Rattle.nodes.specs.Tally.{kids_of};
ghost use Rattle.arena.specs.Calls.{none_of};
ghost use Rattle.arena.specs.Tables.{WellFormed, state_in};
ghost use Rattle.arena.specs.Lent.{before};
ghost use Rattle.check_freed.specs.Models.{all_in};
ghost use Rattle.check_arena.specs.Models.{blank_at, dead_fine, counts_fine, leaf_named, kept_at, leaf_fine, branch_named, tall_at, branch_fine, kind_fine, live_fine, rests_at, plain_at, slot_fine, ranged_by, sound_by};

use arena::{Arena, Seen, all_empty, all_live, fit, next_in};
use basics::{Kids, LARGEST_VALUE, LAST_GENERATION, MOST_HOLDS, TALLEST};
use check_find::find_fine;
use check_freed::{is_given, state_fine};
use check_places::tallies;
use find_hash::{kids_hash, leaf_hash};
use ids::BlockId;
use new_id::branch_id;
use new_node::leaf_id;
use new_value::sums_of;
use nodes::{FLOOR, HASH, HEIGHT, HOLDS, MARK, PLACES, SPARE, SUM, VALUE, children, fact, own};

// ---- a slot that is not live

// Are the words of slot s from the value to the places 0?
fn blank(facts: &[u32], s: usize) -> bool
    ensures { result ≡ blank_at facts.now s }
{
    (VALUE..MARK).all(|f| fact(facts, s, f) == 0)
}

// Are the children of slot s EMPTY?
fn bare(kids: &[u64], s: usize) -> bool
    ensures { result ≡ none_of (kids_of kid_words (kid_of kids.now) s) }
{
    all_empty(children(kids, s))
}

// Is slot s cleared: value 0, children EMPTY, both counts 0? Its own word is a generation alone.
#[tactic(auto, unfolding(crate::specs::Models::dead_fine))]
fn dead_fine(seen: &Seen<'_>, s: usize) -> bool
    ensures { result ≡ dead_fine seen.now.kids.now seen.now.facts.now s }
{
    own(seen.facts, s) % 0x1_0000_0000 == 0 && bare(seen.kids, s) && blank(seen.facts, s)
}

// ---- a live slot

// Holds plus places is at least 1.
fn is_used(facts: &[u32], s: usize) -> bool
    ensures { result ≡ leb 1 (fact_of facts.now s holds + fact_of facts.now s places) }
{
    1 <= fact(facts, s, HOLDS) || 1 <= fact(facts, s, PLACES)
}

// At most 1,000,000 holds, holds plus places at least 1, and the mark 0.
#[tactic(auto, unfolding(crate::specs::Models::counts_fine))]
fn counts_fine(facts: &[u32], s: usize) -> bool
    ensures { result ≡ counts_fine facts.now s }
{
    fact(facts, s, HOLDS) <= MOST_HOLDS && is_used(facts, s) && fact(facts, s, MARK) == 0
}

// Is the own word of slot s the id of a leaf there?
fn leaf_named(facts: &[u32], s: usize) -> bool
    ensures { result ≡ leaf_named facts.now s }
{
    let o = own(facts, s);
    o == leaf_id(s, o)
}

// Slot s keeps this sum and this hash.
#[tactic(auto, unfolding(crate::specs::Models::kept_at))]
fn keeps(facts: &[u32], sum: u64, hash: u32, s: usize) -> bool
    ensures { result ≡ kept_at facts.now sum hash s }
{
    u64::from(fact(facts, s, SUM)) == sum && fact(facts, s, HASH) == hash
}

// A leaf has a value other than 0; its height is 0. It keeps the sum 0 and the hash of its value.
#[tactic(auto, unfolding(crate::specs::Models::leaf_fine))]
fn leaf_fine(facts: &[u32], s: usize) -> bool
    ensures { result ≡ leaf_fine facts.now s }
{
    let value = fact(facts, s, VALUE);
    leaf_named(facts, s)
        && value != 0
        && fact(facts, s, HEIGHT) == 0
        && keeps(facts, 0, leaf_hash(value), s)
}

// Is the own word of slot s the id of a branch there with the children ks?
fn branch_named(facts: &[u32], ks: Kids, s: usize) -> bool
    ensures { result ≡ branch_named facts.now ks s }
{
    let o = own(facts, s);
    o == branch_id(ks, s, o)
}

// The height of slot s is one more than `top`, at most the tallest allowed.
#[tactic(auto, unfolding(crate::specs::Models::tall_at))]
fn is_tall(facts: &[u32], top: u32, s: usize) -> bool
    ensures { result ≡ tall_at facts.now top s }
{
    let height = fact(facts, s, HEIGHT);
    height != 0 && height <= TALLEST && height - 1 == top
}

// A branch with the children ks: they are live or EMPTY, and its id, its stored value and its height follow from them, and so do the sum and the hash that it
// keeps.
#[tactic(auto, unfolding(crate::specs::Models::branch_fine))]
fn branch_fine(facts: &[u32], capacity: usize, ks: Kids, s: usize) -> bool
    ensures { result ≡ branch_fine facts.now capacity ks s }
{
    let sums = sums_of(facts, ks);
    branch_named(facts, ks, s)
        && all_live(capacity, facts, ks)
        && fact(facts, s, VALUE) == sums.value
        && keeps(facts, sums.sum, kids_hash(ks), s)
        && is_tall(facts, sums.top, s)
}

// Without children the node in slot s is a leaf, else a branch.
#[tactic(auto, unfolding(crate::specs::Models::kind_fine))]
fn kind_fine(facts: &[u32], capacity: usize, ks: Kids, s: usize) -> bool
    ensures { result ≡ kind_fine facts.now capacity ks s }
{
    if all_empty(ks) {
        leaf_fine(facts, s)
    } else {
        branch_fine(facts, capacity, ks, s)
    }
}

// A live node meets the rules on content, stored value, height and id, with at most 1,000,000 holds.
#[tactic(auto, unfolding(crate::specs::Models::live_fine))]
fn live_fine(seen: &Seen<'_>, s: usize) -> bool
    ensures { result ≡ live_fine seen.now.kids.now seen.now.facts.now seen.now.capacity s }
{
    counts_fine(seen.facts, s) && kind_fine(seen.facts, seen.capacity, children(seen.kids, s), s)
}

// ---- every slot

// Slot s was given out, or has generation 0, no node and the mark 0.
#[tactic(auto, unfolding(crate::specs::Models::rests_at))]
fn rests(facts: &[u32], next: usize, s: usize) -> bool
    ensures { result ≡ rests_at facts.now next s }
{
    is_given(next, s) || (own(facts, s) == 0 && fact(facts, s, MARK) == 0)
}

// The spare word of slot s is 0, its value at most 65,535, and its generation not above 0x7FFD.
#[tactic(auto, unfolding(crate::specs::Models::plain_at))]
fn is_plain(facts: &[u32], s: usize) -> bool
    ensures { result ≡ plain_at facts.now s }
{
    fact(facts, s, SPARE) == 0
        && fact(facts, s, VALUE) <= LARGEST_VALUE
        && BlockId(own(facts, s)).generation() <= LAST_GENERATION
}

// Slot s has a live node that meets the rules, or is cleared.
#[tactic(auto, unfolding(crate::specs::Models::slot_fine, nodes::specs::Words::floor))]
fn slot_fine(seen: &Seen<'_>, next: usize, s: usize) -> bool
    ensures { result ≡ slot_fine seen.now.kids.now seen.now.facts.now seen.now.capacity next s }
{
    is_plain(seen.facts, s)
        && rests(seen.facts, next, s)
        && if FLOOR <= own(seen.facts, s) {
            live_fine(seen, s)
        } else {
            dead_fine(seen, s)
        }
}

// Every slot is as it must be by itself and by its children.
fn slots_fine(seen: &Seen<'_>, next: usize) -> bool
    ensures { result ≡ all_in 0 seen.now.capacity (slot_fine seen.now.kids.now seen.now.facts.now seen.now.capacity next) }
{
    (0..seen.capacity).all(|s| slot_fine(seen, next, s))
}

// ---- the check

// The lowest slot never given out is one of 1 to the capacity.
#[tactic(auto, unfolding(crate::specs::Models::ranged_by))]
fn is_ranged(next: usize, capacity: usize) -> bool
    ensures { result ≡ ranged_by next capacity }
{
    1 <= next && next <= capacity
}

// All of it but the tally, which wants these to be right.
#[tactic(auto, unfolding(crate::specs::Models::sound_by))]
fn is_sound(seen: Seen<'_>) -> bool
    ensures { result ≡ sound_by (state_in seen.entry.capacity seen.entry.slots) seen.entry.kids.now seen.entry.facts.now seen.entry.find.now }
{
    let next = next_in(seen.slots) as usize;
    fit(
        seen.capacity,
        seen.kids.len(),
        seen.facts.len(),
        seen.find.len(),
    ) && is_ranged(next, seen.capacity)
        && slots_fine(&seen, next)
        && state_fine(seen)
        && find_fine(seen)
}

// The arena check: yes exactly if the tables are well formed, on any tables; with refusal 1 it says no. The tables are as before.
// Kept: the tables apart, since the tally writes marks into `facts`, and C lends the others to be read.
pub fn check_arena(arena: Arena, kids: &[u64], facts: &mut [u32], find: &[u16]) -> bool
    ensures { ((result ≡ true) ↔ WellFormed cube_kids deepest (before arena kids.now facts.old find.now)) × (facts.new ≡ facts.old) }
{
    is_sound(arena.seen(kids, facts, find)) && tallies(kids, facts, arena.capacity)
}
