// Intern branch: the live branch of eight children if there is one, else a fresh one. What it answers and leaves is in the crate arena's
// specs/Calls.antt.
#![tactic(auto)]

ghost use Rattle.std.specs.Prelude.{◌≡◌, ◌≢◌, List, ℕ, ◌%◌, ◌^◌, ◌≤◌, ◌<◌, eqb};
ghost use Rattle.basics.specs.Limits.{deepest, cube_kids, kid_words};
ghost use Rattle.basics.specs.Pick.{pick};
ghost use Rattle.basics.specs.Refusals.{number, no_of};
ghost use Rattle.nodes.specs.Tally.{occ};
ghost use Rattle.nodes.specs.Words.{Words, holds as holds_word, fact_of};
ghost use Rattle.find_hash.specs.Hash.{kids_hash};
ghost use Rattle.arena.specs.Calls.{made_of, refused, Fair, each, enough_for, enough, intern_branch_of, raw_ids};
ghost use Rattle.arena.specs.Models.{bumped, taken_one, has_one, lasts, given_back, late_no, branch_new_by, branch_at, branch_by, intern_branch_by};
ghost use Rattle.arena.specs.Tables.{state_of, tables};
ghost use Rattle.arena.specs.Lent.{before, made};

use arena::{Arena, Made, all_empty, all_live, bump, bump_all, fit, hit, slot_of};
use basics::{KID_WORDS, Kids, MOST_HOLDS, Refusal, TALLEST};
use find::search;
use find_hash::kids_hash;
use ids::BlockId;
use new_id::{mask_of, types_of};
use new_node::{free_slots, fresh_branch};
use new_value::{Sums, sums_of};
use nodes::{HOLDS, PLACES, fact};
use nodes_write::put_fact;

// How often y stands among the eight.
fn occurs(ks: Kids, y: u64) -> u32
    ensures { result ≡ occ y ks }
{
    ks.iter().filter(|k| **k == y).count() as u32
}

// Has k a hold for each of its places among the eight? Eight holds are always enough.
#[tactic(auto, using(nodes::proofs::Sums::occ_length), unfolding(arena::specs::Calls::enough_for))]
fn enough_for(facts: &[u32], ks: Kids, k: u64) -> bool
    ensures { result ≡ enough_for (fact_of facts.now) ks k }
{
    if BlockId(k).is_empty() {
        return true;
    }
    let h = fact(facts, slot_of(k), HOLDS);
    8 <= h || occurs(ks, k) <= h
}

// Not refusal 5: has each the holds that the call would take?
fn all_enough(facts: &[u32], ks: Kids) -> bool
    ensures { result ≡ enough (fact_of facts.now) ks }
{
    for k in ks {
        if !enough_for(facts, ks, k) {
            return false;
        }
    }
    true
}

// Refused: nothing is changed.
fn refuse(a: Arena, refusal: Refusal) -> Made
    ensures { (k f e : List ℕ) → made_of a.capacity result k f e ≡ refused (number refusal) (tables (state_of a) k f e) }
{
    Made {
        no: u32::from(refusal),
        id: BlockId::INVALID,
        slots: a.slots,
    }
}

// Refused by one of those after 5, or by 5 in its place where there are too few holds.
fn refuse_late(a: Arena, facts: &[u32], ks: Kids, late: Refusal) -> Made
    ensures { (k f e : List ℕ) → made_of a.capacity result k f e ≡ refused (pick (enough (fact_of facts.now) ks) (number late) 5) (tables (state_of a) k f e) }
{
    if all_enough(facts, ks) {
        refuse(a, late)
    } else {
        refuse(a, Refusal::FewHolds)
    }
}

// Takes one hold from the node of k, if it has one: else the answer is false. EMPTY needs none. `bump` gives back what it took.
fn take_hold(facts: &mut [u32], k: u64) -> bool
    ensures { (result ≡ has_one facts.old k) × (facts.new ≡ pick result (taken_one facts.old k) facts.old) × (pick result (bumped holds_word facts.new k) facts.new ≡ facts.old) }
{
    if BlockId(k).is_empty() {
        return true;
    }
    let s = slot_of(k);
    let h = fact(facts, s, HOLDS);
    if h == 0 {
        return false;
    }
    put_fact(facts, s, HOLDS, h - 1);
    true
}

// Takes one hold from each in turn, until one has none left. Answers how many were passed.
fn take_while(facts: &mut [u32], ks: Kids) -> usize
    ensures { (result ≤ kid_words) × (eqb result kid_words ≡ lasts facts.old ks) × (pick (eqb result kid_words) facts.new (given_back facts.new ks result) ≡ pick (eqb result kid_words) (each taken_one facts.old ks) facts.old) }
{
    for (i, k) in ks.iter().enumerate() {
        if !take_hold(facts, *k) {
            return i;
        }
    }
    KID_WORDS
}

// Gives back the holds taken from the first n, the last one first.
fn give_back(facts: &mut [u32], ks: Kids, n: usize)
    requires { n ≤ kid_words }
    ensures { facts.new ≡ given_back facts.old ks n }
{
    for i in (0..n).rev() {
        bump(facts, HOLDS, ks[i]);
    }
}

// Takes one hold for each child that isn't EMPTY. Where one has none left nothing is taken, and the answer is false.
fn take_holds(facts: &mut [u32], ks: Kids) -> bool
    ensures { (result ≡ lasts facts.old ks) × (facts.new ≡ pick result (each taken_one facts.old ks) facts.old) }
{
    let n = take_while(facts, ks);
    if n < KID_WORDS {
        give_back(facts, ks, n);
        return false;
    }
    true
}

// A fresh branch, named in the cell `at`: the holds of its children, which are taken already, become places.
#[tactic(auto, using(crate::proofs::Steps::fresh))]
fn branch_new(
    a: Arena,
    kids: &mut [u64],
    facts: &mut [u32],
    find: &mut [u16],
    ks: Kids,
    sums: Sums,
    k: u32,
    at: usize,
) -> Made
    requires { (sums.top < deepest) × (k ≡ kids_hash ks) }
    ensures { made a result kids.new facts.new find.new ≡ branch_new_by (before a kids.old facts.old find.old) ks sums.value sums.top (sums.sum % 2 ^ 32) at }
{
    let sum = (sums.sum % 0x1_0000_0000) as u32;
    bump_all(facts, PLACES, ks);
    fresh_branch(
        a,
        kids,
        facts,
        find,
        at,
        ks,
        types_of(ks),
        mask_of(ks),
        sums.value,
        sums.top + 1,
        sum,
        k,
        1,
        0,
    )
}

// May a branch be made whose tallest child has the height `top`? Refusals 8 and 11.
#[tactic(auto, unfolding(arena::specs::Models::late_no, arena::specs::Calls::room_of))]
fn may_make(a: Arena, top: u32) -> Result<(), Refusal>
    ensures { (U : Words) → no_of result ≡ late_no deepest (state_of a) U 0 top }
{
    if top >= TALLEST {
        return Err(Refusal::Tall);
    }
    if free_slots(a) == 0 {
        return Err(Refusal::Full);
    }
    Ok(())
}

// The branch of these children where it is not there: the search has ended at the empty cell `at`.
fn branch_miss(
    a: Arena,
    kids: &mut [u64],
    facts: &mut [u32],
    find: &mut [u16],
    ks: Kids,
    k: u32,
    at: usize,
) -> Made
    requires { k ≡ kids_hash ks }
    ensures { made a result kids.new facts.new find.new ≡ branch_at cube_kids deepest (before a kids.old facts.old find.old) ks 0 at }
{
    if !all_live(a.capacity, facts, ks) {
        return refuse(a, Refusal::NotLive);
    }
    let sums = sums_of(facts, ks);
    if let Err(late) = may_make(a, sums.top) {
        return refuse_late(a, facts, ks, late);
    }
    if !take_holds(facts, ks) {
        return refuse(a, Refusal::FewHolds);
    }
    branch_new(a, kids, facts, find, ks, sums, k, at)
}

// The branch of these children where it is there, in slot s: so its children live. Their holds end, and it gets one.
fn branch_hit(a: Arena, facts: &mut [u32], ks: Kids, s: usize) -> Made
    requires { s ≢ 0 }
    ensures { (k e : List ℕ) (at : ℕ) → made_of a.capacity result k facts.new e ≡ branch_at cube_kids deepest (before a k facts.old e) ks s at }
{
    if fact(facts, s, HOLDS) >= MOST_HOLDS {
        return refuse_late(a, facts, ks, Refusal::ManyHolds);
    }
    if !take_holds(facts, ks) {
        return refuse(a, Refusal::FewHolds);
    }
    hit(a, facts, s)
}

// The branch of these children: it is searched for first, since where it is there nothing of them but their holds has to be looked at.
fn branch(a: Arena, kids: &mut [u64], facts: &mut [u32], find: &mut [u16], ks: Kids) -> Made
    ensures { made a result kids.new facts.new find.new ≡ branch_by cube_kids deepest (before a kids.old facts.old find.old) ks }
{
    let k = kids_hash(ks);
    let found = search(find, kids, facts, a.capacity, k, ks);
    if found.slot == 0 {
        branch_miss(a, kids, facts, find, ks, k, found.cell)
    } else {
        branch_hit(a, facts, ks, found.slot)
    }
}

// Intern branch on any tables. Refusals 1 and 7 first: of eight EMPTY ids neither 4 nor 5 can apply.
fn branch_any(a: Arena, kids: &mut [u64], facts: &mut [u32], find: &mut [u16], ks: Kids) -> Made
    ensures { made a result kids.new facts.new find.new ≡ intern_branch_by cube_kids deepest (before a kids.old facts.old find.old) ks }
{
    if !fit(a.capacity, kids.len(), facts.len(), find.len()) {
        return refuse(a, Refusal::Size);
    }
    if all_empty(ks) {
        return refuse(a, Refusal::AllEmpty);
    }
    branch(a, kids, facts, find, ks)
}

// The raw numbers of eight ids.
fn raw_ids(ids: [BlockId; KID_WORDS]) -> Kids
    ensures { result ≡ raw_ids ids }
{
    ids.map(|id| id.0)
}

// Intern branch: the live node of those eight ids if there is one, else a fresh one; the caller gets one hold. It uses up one of the caller's
// holds for each child that isn't EMPTY.
#[tactic(auto, using(crate::proofs::Steps::cube_law))]
pub fn intern_branch(
    arena: Arena,
    kids: &mut [u64],
    facts: &mut [u32],
    find: &mut [u16],
    children: [BlockId; KID_WORDS],
) -> Made
    ensures { Fair cube_kids deepest (before arena kids.old facts.old find.old) → made arena result kids.new facts.new find.new ≡ intern_branch_of cube_kids deepest (before arena kids.old facts.old find.old) (raw_ids children) }
{
    branch_any(arena, kids, facts, find, raw_ids(children))
}
