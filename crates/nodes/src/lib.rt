// The words of the nodes in their two lent tables, `kids` and `facts`: see specs/Words.antt. Every function is total: what lies outside a
// table reads 0, and a slot for whose words it has no room lies outside.
#![tactic(auto)]

ghost use Rattle.std.specs.Prelude.{◌≡◌, ◌<◌, ltb};
ghost use Rattle.basics.specs.Limits.{kid_words};
ghost use Rattle.basics.specs.Pick.{pick};
ghost use Rattle.nodes.specs.Words.{own as own_word, value as value_word, kid_of, fact_of};
ghost use Rattle.nodes.specs.Tally.{kids_of};

use basics::{FACT_WORDS, KID_WORDS, Kids, NO_KIDS, ROW_WORDS};

// The words of a slot in the table `facts`. (The children are the words 0 to 7, the own word is word 8.)
// Kept: they are places in a table (docs/TABLES.md), and `fact` and `put_fact` of crate `nodes_write` promise an answer for any number.
pub const VALUE: usize = 9;

pub const HEIGHT: usize = 10;

pub const SUM: usize = 11;

pub const SPARE: usize = 12;

pub const HASH: usize = 13;

pub const HOLDS: usize = 14;

pub const PLACES: usize = 15;

pub const MARK: usize = 16;

pub const ENTRY: usize = 17;

// 2^47: an own word from here on is the id of a live node.
pub const FLOOR: u64 = 0x8000_0000_0000;

// Slot numbers are below it, so that the place of a row is a number of 64 bits.
pub const ROWS: usize = 0x1_0000_0000;

// Child i of slot s; 0 above 7. The test is by how many rows there are, which a walk from slot to slot works out once.
#[tactic(auto, using(crate::proofs::Answers::kid_rules))]
pub fn kid(kids: &[u64], s: usize, i: usize) -> u64
    ensures { result ≡ kid_of kids.now s i }
{
    if i < KID_WORDS && s < ROWS && s < kids.len() / KID_WORDS {
        return kids[KID_WORDS * s + i];
    }
    0
}

// The eight children of slot s.
#[tactic(auto, using(crate::proofs::Answers::children_rules))]
pub fn children(kids: &[u64], s: usize) -> Kids
    ensures { result ≡ kids_of kid_words (kid_of kids.now) s }
{
    if s < ROWS && KID_WORDS * s + 7 < kids.len() {
        let at = KID_WORDS * s;
        if let Some(row) = kids[at..at + KID_WORDS].as_array() {
            return *row;
        }
    }
    NO_KIDS
}

// The own word of slot s.
pub fn own(facts: &[u32], s: usize) -> u64
    ensures { result ≡ fact_of facts.now s own_word }
{
    if s < ROWS && FACT_WORDS * s + 10 < facts.len() {
        let at = ROW_WORDS * s;
        return u64::from(facts[at]) + 0x1_0000_0000 * u64::from(facts[at + 1]);
    }
    0
}

// The fact f of slot s; 0 of its own word, which has a function of its own, and where f is no fact. The hashes stand at the end of the table,
// the other facts in rows.
#[tactic(auto, using(crate::proofs::Answers::fact_rules))]
pub fn fact(facts: &[u32], s: usize, f: usize) -> u32
    ensures { result ≡ pick (ltb own_word f) (fact_of facts.now s f) 0 }
{
    if f < VALUE || f > ENTRY || s >= ROWS || facts.len() <= FACT_WORDS * s + 10 {
        return 0;
    }
    if f == HASH {
        return facts[facts.len() - 1 - s];
    }
    let at = ROW_WORDS * s;
    if f < HASH {
        return facts[at + (f - 7)];
    }
    facts[at + (f - 8)]
}

// The stored value of slot s: the fact VALUE, with a test by how many rows there are, which a reader of many values works out once.
pub fn stored(facts: &[u32], s: usize) -> u32
    ensures { result ≡ fact_of facts.now s value_word }
{
    if s < ROWS && s < facts.len() / FACT_WORDS {
        return facts[ROW_WORDS * s + 2];
    }
    0
}
