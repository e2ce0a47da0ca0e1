// The words of the nodes written, one fact or a whole slot, in their two lent tables, `kids` and `facts`: see specs/Words.antt of crate `nodes`.
// Every public function is total: what lies outside a table is not written.
#![tactic(auto)]

ghost use Rattle.std.specs.Prelude.{◌≡◌, [], ◌∷◌, ◌+◌, ◌<◌, length, set};
ghost use Rattle.basics.specs.Limits.{kid_words};
ghost use Rattle.nodes.specs.Words.{fact_put, facts_put, row_put};

use basics::{FACT_WORDS, KID_WORDS, Kids, ROW_WORDS};
use nodes::{ENTRY, HASH, ROWS, VALUE};

// Writes the fact f of slot s; nothing where f is its own word, or no fact.
pub fn put_fact(facts: &mut [u32], s: usize, f: usize, v: u32)
    ensures { facts.new ≡ fact_put facts.old s f v }
{
    let n = facts.len();
    if f < VALUE || f > ENTRY || s >= ROWS || n <= FACT_WORDS * s + 10 {
        return;
    }
    let at = ROW_WORDS * s;
    if f == HASH {
        facts[n - 1 - s] = v;
    } else if f < HASH {
        facts[at + (f - 7)] = v;
    } else {
        facts[at + (f - 8)] = v;
    }
}

// Writes four words that the table has room for.
// Kept: `copy_from_slice` of a slot's words, tried, goes through the stack and takes twice the instructions.
fn put_four<T: Copy>(table: &mut [T], at: usize, a: T, b: T, c: T, d: T)
    requires { at + 3 < length table.old }
    ensures { table.new ≡ set (set (set (set table.old at a) (at + 1) b) (at + 2) c) (at + 3) d }
{
    table[at] = a;
    table[at + 1] = b;
    table[at + 2] = c;
    table[at + 3] = d;
}

// Writes the eight children of slot s.
pub fn put_children(kids: &mut [u64], s: usize, ks: Kids)
    ensures { kids.new ≡ row_put kid_words kids.old s ks }
{
    if s < ROWS && KID_WORDS * s + 7 < kids.len() {
        let at = KID_WORDS * s;
        put_four(kids, at, ks[0], ks[1], ks[2], ks[3]);
        put_four(kids, at + 4, ks[4], ks[5], ks[6], ks[7]);
    }
}

// Writes the facts of slot s, but for the spare word, which is 0, and the entry, which is no node's.
pub fn put_facts(
    facts: &mut [u32],
    s: usize,
    own: u64,
    value: u32,
    height: u32,
    sum: u32,
    hash: u32,
    holds: u32,
    places: u32,
    mark: u32,
)
    ensures { facts.new ≡ facts_put facts.old s (own ∷ value ∷ height ∷ sum ∷ 0 ∷ hash ∷ holds ∷ places ∷ mark ∷ []) }
{
    let n = facts.len();
    if s < ROWS && FACT_WORDS * s + 10 < n {
        let low = (own % 0x1_0000_0000) as u32;
        let high = (own / 0x1_0000_0000) as u32;
        let at = ROW_WORDS * s;
        put_four(facts, at, low, high, value, height);
        put_four(facts, at + 4, sum, 0, holds, places);
        facts[at + 8] = mark;
        facts[n - 1 - s] = hash;
    }
}
