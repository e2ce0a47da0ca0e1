// The tally of all nodes of any tables, whatever they hold, in three passes over the slots: a counter in the mark word of live slots, 0 before and 0
// again after. See specs/Models.antt.
#![tactic(auto)]

ghost use Rattle.std.specs.Prelude.{◌≡◌};
ghost use Rattle.check_freed.specs.Models.{all_in};
ghost use Rattle.check_places.specs.Models.{count_to, unmarked, clear_to, agree_at};

use arena::bump_all;
use nodes::{FLOOR, MARK, PLACES, children, fact, own};
use nodes_write::put_fact;

// Counts the child places of the slots below c.
fn count_all(kids: &[u64], facts: &mut [u32], c: usize)
    ensures { facts.new ≡ count_to kids.now facts.old c }
{
    for s in 0..c {
        bump_all(facts, MARK, children(kids, s));
    }
}

// Sets the counter of slot s to 0 again, if it is live.
fn clear_mark(facts: &mut [u32], s: usize)
    ensures { facts.new ≡ unmarked facts.old s }
{
    if FLOOR <= own(facts, s) {
        put_fact(facts, s, MARK, 0);
    }
}

// Sets the counters of the live slots below c to 0 again.
fn clear_marks(facts: &mut [u32], c: usize)
    ensures { facts.new ≡ clear_to facts.old c }
{
    for s in 0..c {
        clear_mark(facts, s);
    }
}

// Slot s is not live, or its places equal its counter.
fn agrees(facts: &[u32], s: usize) -> bool
    ensures { result ≡ agree_at facts.now s }
{
    own(facts, s) < FLOOR || fact(facts, s, PLACES) == fact(facts, s, MARK)
}

// The places of each live slot below c equal its counter.
fn all_agree(facts: &[u32], c: usize) -> bool
    ensures { result ≡ all_in 0 c (agree_at facts.now) }
{
    (0..c).all(|s| agrees(facts, s))
}

// Places equal the true tally, of the slots below c. (Of tables whose children are live or EMPTY and whose live slots have the mark 0: then the
// tables are as before.)
// Kept: the tables apart, since the counters are written into `facts`.
pub fn tallies(kids: &[u64], facts: &mut [u32], c: usize) -> bool
    ensures { (result ≡ all_in 0 c (agree_at (count_to kids.now facts.old c))) × (facts.new ≡ clear_to (count_to kids.now facts.old c) c) }
{
    count_all(kids, facts, c);
    let r = all_agree(facts, c);
    clear_marks(facts, c);
    r
}
