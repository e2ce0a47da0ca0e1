// Of any tables, whatever they hold: how many nodes live, and the stack of the freed slots, in a pass over the slots and one over the stack. What they
// answer is in specs/Models.antt. Each takes time linear in what it goes over, and stops where it says no.
#![tactic(auto)]

ghost use Rattle.std.specs.Prelude.{◌≡◌};
ghost use Rattle.nodes.specs.Words.{fact_of};
ghost use Rattle.nodes.specs.Tally.{live_count};
ghost use Rattle.arena.specs.Tables.{state_in};
ghost use Rattle.check_freed.specs.Models.{all_in, is_given, is_free, numbered_by, entry_fine, state_fine};

use arena::{Seen, freed_in, next_in};
use nodes::{ENTRY, FLOOR, MARK, fact, own};

// Was slot s given out? Slot 0 never is.
pub fn is_given(next: usize, s: usize) -> bool
    ensures { result ≡ is_given next s }
{
    s != 0 && s < next
}

// How many of the slots below c live.
fn count_live(facts: &[u32], c: usize) -> usize
    ensures { result ≡ live_count c (fact_of facts.now) }
{
    (0..c).filter(|s| FLOOR <= own(facts, *s)).count()
}

// Slot s was given out and is not live.
fn is_free(facts: &[u32], next: usize, s: usize) -> bool
    ensures { result ≡ is_free facts.now next s }
{
    is_given(next, s) && own(facts, s) < FLOOR
}

// Slot s was given out and is not live, and its number on the stack is i.
fn is_numbered(facts: &[u32], next: usize, i: usize, s: usize) -> bool
    ensures { result ≡ numbered_by facts.now next i s }
{
    is_free(facts, next, s) && fact(facts, s, MARK) as usize == i
}

// Each of the entries of the stack below `freed` is such a slot. (So no two are one slot.)
fn entries_fine(facts: &[u32], next: usize, freed: usize) -> bool
    ensures { result ≡ all_in 0 freed (entry_fine facts.now next) }
{
    (0..freed).all(|i| is_numbered(facts, next, i, fact(facts, i, ENTRY) as usize))
}

// Every slot from 1 up to the highest given out is live or on the stack of the freed ones, once.
pub fn state_fine(seen: Seen<'_>) -> bool
    ensures { result ≡ state_fine (state_in seen.entry.capacity seen.entry.slots) seen.entry.facts.now }
{
    let next = next_in(seen.slots) as usize;
    let freed = freed_in(seen.slots) as usize;
    if freed >= next {
        return false;
    }
    count_live(seen.facts, seen.capacity) == next - 1 - freed
        && entries_fine(seen.facts, next, freed)
}
