// What children come to: the sum of their stored values, the stored value of a branch with them, and the height of the tallest. Intern branch and the edit
// work out their new branches with these.
#![tactic(auto)]

ghost use Rattle.std.specs.Prelude.{◌≡◌, eqb, ltb};
ghost use Rattle.basics.specs.Pick.{pick};
ghost use Rattle.basics.specs.Limits.{cube_kids};
ghost use Rattle.nodes.specs.Words.{fact_of, own, slot};
ghost use Rattle.nodes.specs.Values.{value_at, height_at};
ghost use Rattle.arena.specs.Models.{top_for};
ghost use Rattle.arena.specs.Node.{sum_for, value_for};

use arena::slot_of;
use basics::{CUBE_KIDS, Kids};
use nodes::{HEIGHT, VALUE, fact};

// The sum of the children's stored values, the stored value of their branch, and the height of the tallest of them.
#[derive(Clone, Copy)]
pub struct Sums {
    pub sum: u64,
    pub value: u32,
    pub top: u32,
}

// A fact of the node of an id; 0 of EMPTY.
fn fact_at(facts: &[u32], id: u64, f: usize) -> u32
    ensures { result ≡ pick (eqb id 0) 0 (pick (ltb own f) (fact_of facts.now (slot id) f) 0) }
{
    if id == 0 {
        return 0;
    }
    fact(facts, slot_of(id), f)
}

// The stored value of an id; 0 of EMPTY.
#[tactic(auto, unfolding(nodes::specs::Values::value_at))]
pub fn value_at(facts: &[u32], id: u64) -> u32
    ensures { result ≡ value_at (fact_of facts.now) id }
{
    fact_at(facts, id, VALUE)
}

// The height of an id; 0 of EMPTY.
#[tactic(auto, unfolding(nodes::specs::Values::height_at))]
pub fn height_at(facts: &[u32], id: u64) -> u32
    ensures { result ≡ height_at (fact_of facts.now) id }
{
    fact_at(facts, id, HEIGHT)
}

// What these children come to, in one pass. EMPTY adds nothing.
#[tactic(auto, using(crate::proofs::Steps::steps))]
pub fn sums_of(facts: &[u32], ks: Kids) -> Sums
    ensures { (result.sum ≡ sum_for cube_kids (fact_of facts.now) ks) × (result.value ≡ value_for cube_kids (fact_of facts.now) ks) × (result.top ≡ top_for (fact_of facts.now) ks cube_kids) }
{
    let mut sum: u64 = 0;
    let mut top: u32 = 0;
    for k in ks {
        if k != 0 {
            let s = slot_of(k);
            sum += fact(facts, s, VALUE) as u64;
            top = top.max(fact(facts, s, HEIGHT));
        }
    }
    Sums {
        sum,
        value: (sum / (CUBE_KIDS as u64)) as u32,
        top,
    }
}
