// A fresh arena, hold and counts. What each call answers and leaves is in the crate arena's specs/Calls.antt.
#![tactic(auto)]

ghost use Rattle.std.specs.Prelude.{◌≡◌};
ghost use Rattle.basics.specs.Refusals.{no_of};
ghost use Rattle.arena.specs.Calls.{answered_of, counted_as, did, hold_of, counts_of, fresh_of};
ghost use Rattle.arena.specs.Lent.{before, answered};
ghost use Rattle.arena.specs.Seen.{seen_in};

use arena::{Answer, Arena, Counts, Seen, bump, fit, may_name, slot_of, slots_of};
use basics::{MOST_HOLDS, Refusal};
use ids::BlockId;
use nodes::{HOLDS, PLACES, fact};

// One hold more on the node of `id`. EMPTY: nothing.
fn grant(
    arena: Arena,
    kids: &[u64],
    facts: &mut [u32],
    find: &[u16],
    id: u64,
) -> Result<(), Refusal>
    ensures { did (no_of result) (before arena kids.now facts.new find.now) ≡ hold_of (before arena kids.now facts.old find.now) id }
{
    may_name(arena.seen(kids, facts, find), id)?;
    if id == BlockId::EMPTY.0 {
        return Ok(());
    }
    let s = slot_of(id);
    if MOST_HOLDS <= fact(facts, s, HOLDS) {
        return Err(Refusal::ManyHolds);
    }
    bump(facts, HOLDS, id);
    Ok(())
}

// Hold: the caller gets one hold more. EMPTY: nothing.
// Kept: the tables apart, since the hold is written into `facts`, and C lends the others to be read.
pub fn hold(arena: Arena, kids: &[u64], facts: &mut [u32], find: &[u16], id: BlockId) -> Answer
    ensures { answered arena result kids.now facts.new find.now ≡ hold_of (before arena kids.now facts.old find.now) id.0 }
{
    match grant(arena, kids, facts, find, id.0) {
        Ok(()) => Answer::done(arena.slots),
        Err(refusal) => Answer::refused(refusal, arena.slots),
    }
}

// Counts: the holds and the places of a node.
pub fn counts(seen: Seen<'_>, id: BlockId) -> Result<Counts, Refusal>
    ensures { counted_as result ≡ counts_of (seen_in seen.entry) id.0 }
{
    may_name(seen, id.0)?;
    if id.is_empty() {
        return Ok(Counts {
            holds: 0,
            places: 0,
        });
    }
    let s = slot_of(id.0);
    Ok(Counts {
        holds: fact(seen.facts, s, HOLDS) as u64,
        places: fact(seen.facts, s, PLACES) as u64,
    })
}

// A fresh arena: clears every slot, with generation 0 and none given out.
pub fn fresh(capacity: usize, kids: &mut [u64], facts: &mut [u32], find: &mut [u16]) -> Answer
    ensures { answered_of capacity result kids.new facts.new find.new ≡ fresh_of capacity kids.old facts.old find.old }
{
    let slots = slots_of(1, 0);
    if !fit(capacity, kids.len(), facts.len(), find.len()) {
        return Answer::refused(Refusal::Size, slots);
    }
    kids.fill(0);
    facts.fill(0);
    find.fill(0);
    Answer::done(slots)
}
