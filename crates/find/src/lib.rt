// The finding table: which slot has a content. See specs/Content.antt and specs/Cells.antt.
#![tactic(auto)]

ghost use Rattle.std.specs.Prelude.{◌≡◌, ℕ, Bool, ◌%◌, eqb, get_or, set};
ghost use Rattle.nodes.specs.Words.{fact_of};
ghost use Rattle.nodes.specs.Lent.{words_in};
ghost use Rattle.find.specs.Content.{leaf_is, kids_are};
ghost use Rattle.find.specs.Cells.{leaf_cell, kids_cell, probe};

use basics::Kids;
use find_hash::home_in;
use ids::BlockId;
use nodes::{HASH, VALUE, children, fact, own};

// Where a search ended: the cell, and the slot that it names, 0 for none.
// Kept: 0 is the empty cell of the table format, and a clause of `search` and `search_leaf` says that the slot is what the cell holds.
#[derive(Clone, Copy)]
pub struct Found {
    pub slot: usize,
    pub cell: usize,
}

// ---- cells

// What cell p holds: a slot number, or 0. Past the table's end 0.
pub fn cell(find: &[u16], p: usize) -> usize
    ensures { result ≡ get_or find.now p 0 }
{
    if p < find.len() {
        return usize::from(find[p]);
    }
    0
}

// Writes the slot number s, below 65,536, to the cell `at`.
pub fn put_cell(find: &mut [u16], at: usize, s: usize)
    ensures { find.new ≡ set find.old at (s % 65536) }
{
    if at < find.len() {
        find[at] = (s % 65536) as u16;
    }
}

// ---- a search, and the search for a number

// Where a search from cell `from` on ends: at the first cell that is empty or names a slot that `is` answers true of, or at the table's end.
// Kept: a loop that breaks with the slot number is the form that 01 names for the search.
#[tactic(auto, using(crate::proofs::Steps::probe_rules))]
fn probe<F: Fn(usize) -> bool>(find: &[u16], from: usize, is: F) -> Found
    requires { F.IsAlwaysCallable is }
    ensures cell { (same : ℕ → Bool) → ((x : ℕ) (b : Bool) → F.post is x b → b ≡ same x) → result.cell ≡ probe same find.now from }
    ensures slot { result.slot ≡ get_or find.now result.cell 0 }
{
    let mut i = from;
    let slot = loop {
        if find.len() <= i {
            break 0;
        }
        let slot = usize::from(find[i]);
        if slot == 0 || is(slot) {
            break slot;
        }
        i += 1;
    };
    Found { slot, cell: i }
}

// The first cell from `from` on that is empty or names s, or the table's end.
pub fn number_from(find: &[u16], s: usize, from: usize) -> usize
    ensures { result ≡ probe (eqb s) find.now from }
{
    probe(find, from, |slot| slot == s).cell
}

// ---- the search for a leaf

// Has slot s the hash h and a leaf of the value v? Its children are not read.
#[tactic(auto, using(crate::proofs::Contents::leaf_rules))]
fn is_leaf_of(facts: &[u32], h: u32, v: u32, s: usize) -> bool
    ensures { result ≡ leaf_is (fact_of facts.now) h v s }
{
    fact(facts, s, HASH) == h && BlockId(own(facts, s)).is_leaf() && fact(facts, s, VALUE) == v
}

// Searches for the leaf of value v, whose hash is h: the slot that has it, 0 for none, and the cell where the search ended, the first from the home on that is
// empty or names a slot that has it.
pub fn search_leaf(find: &[u16], facts: &[u32], capacity: usize, h: u32, v: u32) -> Found
    ensures { (result.cell ≡ leaf_cell find.now capacity (fact_of facts.now) h v) × (result.slot ≡ get_or find.now result.cell 0) }
{
    probe(find, home_in(capacity, h), |s| is_leaf_of(facts, h, v, s))
}

// ---- the search for a branch

// Has slot s the hash h and the children ks? Only where the hash is equal are its children read.
fn kids_are(kids: &[u64], facts: &[u32], h: u32, ks: Kids, s: usize) -> bool
    ensures { result ≡ kids_are (words_in kids.now facts.now) h ks s }
{
    fact(facts, s, HASH) == h && children(kids, s) == ks
}

// Searches for the branch of the children ks, whose hash is h: answers as `search_leaf` does.
pub fn search(find: &[u16], kids: &[u64], facts: &[u32], capacity: usize, h: u32, ks: Kids) -> Found
    ensures { (result.cell ≡ kids_cell find.now capacity (words_in kids.now facts.now) h ks) × (result.slot ≡ get_or find.now result.cell 0) }
{
    probe(
        find,
        home_in(capacity, h),
        |s| kids_are(kids, facts, h, ks, s),
    )
}
