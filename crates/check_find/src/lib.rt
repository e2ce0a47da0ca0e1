// The finding table of any tables, whatever they hold, in one pass over its cells and one over the slots. See specs/Models.antt.
#![tactic(auto)]

ghost use Rattle.std.specs.Prelude.{◌≡◌, length, get_or};
ghost use Rattle.nodes.specs.Lent.{words_in};
ghost use Rattle.find.specs.Cells.{seat};
ghost use Rattle.check_freed.specs.Models.{all_in};
ghost use Rattle.check_find.specs.Models.{live_at, named_at, cell_fine, found_at, find_fine};

use arena::Seen;
use find::{Found, cell, search, search_leaf};
use find_hash::{kids_hash, leaf_hash};
use ids::BlockId;
use nodes::{FLOOR, VALUE, children, fact, own};

// Slot s has a live node.
fn lives(facts: &[u32], capacity: usize, s: usize) -> bool
    ensures { result ≡ live_at facts.now capacity s }
{
    s < capacity && FLOOR <= own(facts, s)
}

// Searches for the content of slot s, by the hash worked out from it.
fn search_for(seen: &Seen<'_>, s: usize) -> Found
    ensures { (result.cell ≡ seat seen.now.find.now seen.now.capacity (words_in seen.now.kids.now seen.now.facts.now) s) × (result.slot ≡ get_or seen.now.find.now (seat seen.now.find.now seen.now.capacity (words_in seen.now.kids.now seen.now.facts.now) s) 0) }
{
    if BlockId(own(seen.facts, s)).is_leaf() {
        let v = fact(seen.facts, s, VALUE);
        return search_leaf(seen.find, seen.facts, seen.capacity, leaf_hash(v), v);
    }
    let ks = children(seen.kids, s);
    search(
        seen.find,
        seen.kids,
        seen.facts,
        seen.capacity,
        kids_hash(ks),
        ks,
    )
}

// Slot s is live, and the search for its content ends at cell p.
fn is_at(seen: &Seen<'_>, s: usize, p: usize) -> bool
    ensures { result ≡ named_at seen.now.kids.now seen.now.facts.now seen.now.find.now seen.now.capacity s p }
{
    lives(seen.facts, seen.capacity, s) && search_for(seen, s).cell == p
}

// Cell p is empty, or names a live slot, and no other cell does: the search for the slot's content ends there.
fn cell_fine(seen: &Seen<'_>, p: usize) -> bool
    ensures { result ≡ cell_fine seen.now.kids.now seen.now.facts.now seen.now.find.now seen.now.capacity p }
{
    let s = cell(seen.find, p);
    s == 0 || is_at(seen, s, p)
}

// The finding table names live slots only, each once.
fn cells_fine(seen: &Seen<'_>) -> bool
    ensures { result ≡ all_in 0 (length seen.now.find.now) (cell_fine seen.now.kids.now seen.now.facts.now seen.now.find.now seen.now.capacity) }
{
    (0..seen.find.len()).all(|p| cell_fine(seen, p))
}

// The search finds the node in slot s, if it is live: so no other has equal content.
fn is_found(seen: &Seen<'_>, s: usize) -> bool
    ensures { result ≡ found_at seen.now.kids.now seen.now.facts.now seen.now.find.now seen.now.capacity s }
{
    !lives(seen.facts, seen.capacity, s) || search_for(seen, s).slot == s
}

// The search finds every live node; no two have equal content.
fn all_found(seen: &Seen<'_>) -> bool
    ensures { result ≡ all_in 0 seen.now.capacity (found_at seen.now.kids.now seen.now.facts.now seen.now.find.now seen.now.capacity) }
{
    (0..seen.capacity).all(|s| is_found(seen, s))
}

// The finding table names live slots only, each once, and the search finds every live node.
pub fn find_fine(seen: Seen<'_>) -> bool
    ensures { result ≡ find_fine seen.entry.capacity seen.entry.kids.now seen.entry.facts.now seen.entry.find.now }
{
    cells_fine(&seen) && all_found(&seen)
}
