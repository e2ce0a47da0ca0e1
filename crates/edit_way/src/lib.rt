// The way of an edit, from the root down to the cell, and what the nodes on it stand for: their parts, and the hash of these.
#![tactic(auto)]

ghost use Rattle.std.specs.Prelude.{◌≡◌, ◌<◌, eqb, set};
ghost use Rattle.basics.specs.Pick.{pick};
ghost use Rattle.nodes.specs.Words.{kid_of, fact_of};
ghost use Rattle.edit_way.specs.Models.{eight_parts, hash_over, way_of};

use arena::slot_of;
use basics::{DEEPEST, KID_WORDS, Kids};
use find_hash::even_hash;
use ids::BlockId;
use nodes::{HASH, children, fact};
use paths::{Cell, octant};
use tree::part_of;

// As many levels as a cube has below its root.
pub const LEVELS: usize = 6;

// A way down: at number l the node that has l levels between it and the cell, the id that stands where the cell is, and the child numbers taken, the last of them as the
// lowest octal digit.
#[derive(Clone, Copy)]
pub struct Way {
    pub ids: [u64; LEVELS],
    pub end: u64,
    pub path: u32,
}

// The eight parts of an id: the children of a branch; a leaf, and EMPTY, is each of its own parts.
#[tactic(auto, using(crate::proofs::Words::parts_end, crate::proofs::Words::parts_else))]
pub fn parts(kids: &[u64], id: u64) -> Kids
    ensures { result ≡ eight_parts (kid_of kids.now) id }
{
    if BlockId(id).is_end() {
        return [id; KID_WORDS];
    }
    children(kids, slot_of(id))
}

// The new one for number c, else the one that was there.
fn at_place(c: usize, i: usize, new: u64, old: u64) -> u64
    ensures { result ≡ pick (eqb c i) new old }
{
    if c == i { new } else { old }
}

// The parts with number c replaced.
// Kept: a row written at a variable place goes through memory, which misses the bar of speed of an edit; this one does not.
#[tactic(auto, using(crate::proofs::Words::parts_set))]
pub fn with_part(ks: Kids, c: usize, new: u64) -> Kids
    ensures { result ≡ set ks c new }
{
    [
        at_place(c, 0, new, ks[0]),
        at_place(c, 1, new, ks[1]),
        at_place(c, 2, new, ks[2]),
        at_place(c, 3, new, ks[3]),
        at_place(c, 4, new, ks[4]),
        at_place(c, 5, new, ks[5]),
        at_place(c, 6, new, ks[6]),
        at_place(c, 7, new, ks[7]),
    ]
}

// The hash of the parts of id: a branch keeps it.
#[tactic(auto, unfolding(crate::specs::Models::hash_over))]
pub fn hash_over(facts: &[u32], id: u64) -> u32
    ensures { result ≡ hash_over (fact_of facts.now) id }
{
    if BlockId(id).is_end() {
        return even_hash(id);
    }
    fact(facts, slot_of(id), HASH)
}

// The way from the root to the cell; none for a depth above 6.
pub fn way_down(kids: &[u64], root: u64, cell: Cell) -> Way
    ensures { result ≡ way_of (kid_of kids.now) cell root }
{
    let mut way = Way {
        ids: [root; LEVELS],
        end: root,
        path: 0,
    };
    if DEEPEST < cell.depth {
        return way;
    }
    for left in (0..cell.depth).rev() {
        let c = octant(left, cell.x, cell.y, cell.z);
        way.ids[left as usize] = way.end;
        way.end = part_of(kids, way.end, c);
        way.path = 8 * way.path + c as u32;
    }
    way
}
