// A slot taken out of the finding table. See specs/Cells.antt of crate `find`.
#![tactic(auto)]

ghost use Rattle.std.specs.Prelude.{◌≡◌};
ghost use Rattle.nodes.specs.Words.{fact_of};
ghost use Rattle.find.specs.Content.{home_at};
ghost use Rattle.find.specs.Cells.{erase, remove};

use find::number_from;
use find_hash::home_in;
use nodes::{HASH, fact};

// The home of the node in slot s, by the hash that it keeps.
fn home_at(facts: &[u32], capacity: usize, s: usize) -> usize
    ensures { result ≡ home_at capacity (fact_of facts.now) s }
{
    home_in(capacity, fact(facts, s, HASH))
}

// Cell `at` taken out: what stands above it and can be nearer to its home moves down, so that no search ends too early.
#[tactic(auto, using(crate::proofs::Shifts::shifts))]
fn erase_at(find: &mut [u16], facts: &[u32], capacity: usize, at: usize)
    ensures { find.new ≡ erase (home_at capacity (fact_of facts.now)) find.old at }
{
    if at >= find.len() {
        return;
    }
    let mut hole = at;
    for j in at + 1..find.len() {
        let x = find[j];
        if x == 0 {
            break;
        }
        if home_at(facts, capacity, usize::from(x)) <= hole {
            find[hole] = x;
            hole = j;
        }
    }
    find[hole] = 0;
}

// Takes slot s out of the finding table: the cell where the probe for its number from its home on ends.
pub fn remove_slot(find: &mut [u16], facts: &[u32], capacity: usize, s: usize)
    ensures { find.new ≡ remove (home_at capacity (fact_of facts.now)) find.old s }
{
    let at = number_from(find, s, home_at(facts, capacity, s));
    erase_at(find, facts, capacity, at);
}
