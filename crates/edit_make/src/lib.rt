// The making of an edit: the nodes of the result that are not there, made anew, leaf first and upward.
#![tactic(auto)]

ghost use Rattle.std.specs.Prelude.{◌≡◌, ◌-◌, ◌*◌, ◌%◌, ◌^◌, ◌≤◌, ◌<◌, eqb};
ghost use Rattle.basics.specs.Limits.{deepest};
ghost use Rattle.basics.specs.Pick.{pick};
ghost use Rattle.ids.specs.Ids.{is_end};
ghost use Rattle.nodes.specs.Words.{fact_of};
ghost use Rattle.nodes.specs.Tally.{one_if};
ghost use Rattle.find_hash.specs.Hash.{home_in};
ghost use Rattle.find.specs.Cells.{probe};
ghost use Rattle.edit_make.specs.Models.{sum_over, height_over, resum as resum_of, placed_if, other_bits, placed_where, with_bit, seven_placed, placed_over, leaf_anew_by, branch_anew_by, up_by, hold_at, low_of, from_of, passed as passed_of, make_up, make_on};
ghost use Rattle.arena.specs.Calls.{made_of, fresh_slot};
ghost use Rattle.arena.specs.Lent.{before, made};
ghost use Rattle.arena.specs.Models.{more_of};
ghost use Rattle.arena.specs.Tables.{state_of};

use arena::{Arena, Made, bump, more, slot_of};
use basics::{DEEPEST, Kids, Refusal};
use edit_plan::Plan;
use edit_way::{LEVELS, Way, hash_over, parts, with_part};
use find::number_from;
use find_hash::{home_in, leaf_hash, rehash};
use ids::BlockId;
use new_node::{fresh_branch, fresh_leaf, fresh_slot};
use new_value::{height_at, sums_of, value_at};
use nodes::{PLACES, SUM, fact};
use nodes_write::put_fact;
use tree::part_of;

// Where a fresh node of the hash k is named. Its slot is not named yet, so the search for it ends at the first empty cell from its home on.
fn place_for(a: Arena, facts: &[u32], find: &[u16], k: u32) -> usize
    ensures { result ≡ probe (eqb (fresh_slot (state_of a) (fact_of facts.now))) find.now (home_in a.capacity k) }
{
    number_from(find, fresh_slot(a, facts), home_in(a.capacity, k))
}

fn leaf_anew(
    a: Arena,
    kids: &mut [u64],
    facts: &mut [u32],
    find: &mut [u16],
    v: u32,
    h: u32,
    q: u32,
) -> Made
    ensures { made a result kids.new facts.new find.new ≡ leaf_anew_by (before a kids.old facts.old find.old) v h q }
{
    let k = leaf_hash(v);
    let at = place_for(a, facts, find, k);
    fresh_leaf(a, facts, find, at, v, k, h, q)
}

// The sum of the stored values of the parts of id: a branch keeps it.
fn sum_over(facts: &[u32], id: u64) -> u32
    ensures { result ≡ sum_over (fact_of facts.now) id }
{
    if BlockId(id).is_end() {
        return 8_u32.wrapping_mul(value_at(facts, id));
    }
    fact(facts, slot_of(id), SUM)
}

// The sum after a part of value x became one of value y.
fn resum(sum: u32, x: u32, y: u32) -> u32
    ensures { result ≡ resum_of sum x y }
{
    sum.wrapping_add(y).wrapping_sub(x)
}

// The height of the branch of the children ks, one of them the part y, new in a node of height g. Only if the part is too low for g are the others looked at.
#[tactic(auto, unfolding(crate::specs::Models::height_over))]
fn height_over(facts: &[u32], ks: Kids, y: u64, g: u32) -> u32
    ensures { result ≡ height_over (fact_of facts.now) ks y g }
{
    let up = more(height_at(facts, y));
    if up < g {
        let sums = sums_of(facts, ks);
        return more(sums.top);
    }
    up
}

// One more if `on`.
fn more_if(x: u32, on: bool) -> u32
    ensures { result ≡ pick on (more_of x) x }
{
    if on { more(x) } else { x }
}

// One place more for the node of k if `on`, else nothing is changed. (Written in any case, so that no jump depends on it.)
#[tactic(auto, using(crate::proofs::Steps::place_done))]
fn place_if(facts: &mut [u32], k: u64, on: bool)
    ensures { facts.new ≡ placed_if facts.old k on }
{
    let s = slot_of(k);
    let p = fact(facts, s, PLACES);
    put_fact(facts, s, PLACES, more_if(p, on));
}

// One place more for each of the eight whose bit is 1.
fn place_where(facts: &mut [u32], ks: Kids, mask: u8)
    ensures { facts.new ≡ placed_where facts.old ks mask }
{
    let mut bits = mask;
    for k in &ks {
        place_if(facts, *k, bits % 2 == 1);
        bits /= 2;
    }
}

// The bits of a mask, but for bit c.
#[tactic(auto, unfolding(crate::specs::Models::other_bits), using(crate::proofs::Steps::bit_fits))]
fn other_bits(mask: u8, c: usize) -> u8
    requires { c < 8 }
    ensures { result ≡ other_bits mask c }
{
    let n = c as u32;
    mask - (((mask >> n) % 2) << n)
}

// Bit c alone if `on`, else 0.
fn bit_if(c: usize, on: bool) -> u8
    requires { c < 8 }
    ensures { result ≡ one_if on * 2 ^ c % 2 ^ 8 }
{
    u8::from(on) << c as u32
}

// A byte with bit c as `on` says.
fn with_bit(byte: u8, c: usize, on: bool) -> u8
    requires { c < 8 }
    ensures { result ≡ with_bit byte c on }
{
    other_bits(byte, c).wrapping_add(bit_if(c, on))
}

// A byte with a bit for each part of id: a branch keeps it; an end's eight parts are alike, and EMPTY has no bit.
fn byte_over(id: u64, kept: u8) -> u8
    ensures { result ≡ pick (eqb id 0) 0 (pick (is_end id) 255 kept) }
{
    if id == BlockId::EMPTY.0 {
        0
    } else if BlockId(id).is_end() {
        255
    } else {
        kept
    }
}

// Seven places more for the node of id; EMPTY: nothing.
fn place_seven(facts: &mut [u32], id: u64)
    ensures { facts.new ≡ seven_placed facts.old id }
{
    if id == BlockId::EMPTY.0 {
        return;
    }
    let s = slot_of(id);
    let p = fact(facts, s, PLACES);
    put_fact(facts, s, PLACES, p.wrapping_add(7));
}

// One place more for each of the parts ks of `old` but number c. The mask of a branch says which of them are not EMPTY; an end stands for all seven.
#[tactic(auto, unfolding(crate::specs::Models::placed_over))]
fn place_others(facts: &mut [u32], ks: Kids, old: u64, c: usize)
    requires { c < 8 }
    ensures { facts.new ≡ placed_over facts.old ks old c }
{
    if BlockId(old).is_end() {
        place_seven(facts, old);
        return;
    }
    place_where(facts, ks, other_bits(BlockId(old).mask(), c));
}

#[tactic(auto, using(crate::proofs::Steps::branch_done))]
fn branch_anew(
    a: Arena,
    kids: &mut [u64],
    facts: &mut [u32],
    find: &mut [u16],
    ks: Kids,
    types: u8,
    mask: u8,
    up: u32,
    sum: u32,
    k: u32,
    h: u32,
    q: u32,
) -> Made
    ensures { made a result kids.new facts.new find.new ≡ branch_anew_by (before a kids.old facts.old find.old) ks types mask up sum k h q }
{
    let at = place_for(a, facts, find, k);
    fresh_branch(
        a,
        kids,
        facts,
        find,
        at,
        ks,
        types,
        mask,
        sum / 8,
        up,
        sum,
        k,
        h,
        q,
    )
}

// The branch in the place of `old` over the part `low`, number c, which has its place; the others get theirs. Its two bytes, hash, sum and height come from those of `old`.
fn branch_over(
    capacity: usize,
    low: Made,
    kids: &mut [u64],
    facts: &mut [u32],
    find: &mut [u16],
    old: u64,
    c: usize,
    h: u32,
    q: u32,
) -> Made
    requires { c < 8 }
    ensures { made_of capacity result kids.new facts.new find.new ≡ up_by (made_of capacity low kids.old facts.old find.old) old c h q }
{
    let new = low.id.0;
    let types = with_bit(
        byte_over(old, BlockId(old).types()),
        c,
        BlockId(new).is_leaf(),
    );
    let mask = with_bit(
        byte_over(old, BlockId(old).mask()),
        c,
        !BlockId(new).is_empty(),
    );
    let ks = parts(kids, old);
    let was = part_of(kids, old, c);
    let hash = rehash(hash_over(facts, old), c, was, new);
    let sum = sum_over(facts, old);
    let x = value_at(facts, was);
    let g = height_at(facts, old);
    place_others(facts, ks, old, c);
    let all = with_part(ks, c, new);
    let up = height_over(facts, all, new, g);
    let total = resum(sum, x, value_at(facts, new));
    let a = Arena {
        capacity,
        slots: low.slots,
    };
    branch_anew(
        a, kids, facts, find, all, types, mask, up, total, hash, h, q,
    )
}

// The holds of a node that is made with l levels below it: the topmost, which has all of the depth, has the caller's; any other has a place instead.
#[tactic(auto, using(crate::proofs::Steps::flag_hold))]
fn hold_at(l: u32, depth: u32) -> u32
    ensures { (result ≡ hold_at l depth) × (result ≤ 1) }
{
    u32::from(l == depth)
}

// What the new branches stand over: the leaf, made anew where it is missing too, else the plan's part, which gets its place.
#[tactic(auto, unfolding(crate::specs::Models::low_of, arena::specs::Calls::each))]
fn make_lowest(
    a: Arena,
    kids: &mut [u64],
    facts: &mut [u32],
    find: &mut [u16],
    depth: u32,
    v: u32,
    plan: Plan,
) -> Made
    ensures { made a result kids.new facts.new find.new ≡ low_of (before a kids.old facts.old find.old) v depth plan }
{
    if depth < plan.new {
        let h = hold_at(0, depth);
        return leaf_anew(a, kids, facts, find, v, h, 1 - h);
    }
    bump(facts, PLACES, plan.id);
    Made {
        no: 0,
        id: BlockId(plan.id),
        slots: a.slots,
    }
}

// How many levels the lowest branch that is to be made stands above the cell, less one: its number on the way.
#[tactic(auto, unfolding(crate::specs::Models::from_of))]
fn lowest_level(depth: u32, plan: Plan) -> u32
    ensures { (result ≡ from_of depth plan) × (result ≤ depth) }
{
    if depth < plan.new {
        return 0;
    }
    depth - plan.new
}

// The octal digits of a path without the lowest n.
fn passed(path: u32, n: u32) -> u32
    requires { n ≤ deepest }
    ensures { result ≡ passed_of path n }
{
    path >> (3 * n)
}

// From number `from` of the way upward to the root: a branch in the place of each node.
fn make_up(
    capacity: usize,
    low: Made,
    kids: &mut [u64],
    facts: &mut [u32],
    find: &mut [u16],
    ids: [u64; LEVELS],
    path: u32,
    from: u32,
    depth: u32,
) -> Made
    requires { (from ≤ depth) × (depth ≤ deepest) }
    ensures { made_of capacity result kids.new facts.new find.new ≡ make_up ids depth (depth - from) from path (made_of capacity low kids.old facts.old find.old) }
{
    let mut last = low;
    let mut digits = path;
    for l in from..depth {
        let c = (digits % 8) as usize;
        digits /= 8;
        let h = hold_at(l + 1, depth);
        last = branch_over(
            capacity,
            last,
            kids,
            facts,
            find,
            ids[l as usize],
            c,
            h,
            1 - h,
        );
    }
    last
}

// The result of an edit made along a way: the plan's new nodes upward over its part, the topmost with one hold. Refusal 2 of a depth above 6.
pub fn make(
    a: Arena,
    kids: &mut [u64],
    facts: &mut [u32],
    find: &mut [u16],
    way: Way,
    depth: u32,
    v: u32,
    plan: Plan,
) -> Made
    ensures { made a result kids.new facts.new find.new ≡ make_on (before a kids.old facts.old find.old) v way depth plan }
{
    if DEEPEST < depth {
        return Made {
            no: u32::from(Refusal::Depth),
            id: BlockId::INVALID,
            slots: a.slots,
        };
    }
    let low = make_lowest(a, kids, facts, find, depth, v, plan);
    let from = lowest_level(depth, plan);
    let digits = passed(way.path, from);
    make_up(
        a.capacity, low, kids, facts, find, way.ids, digits, from, depth,
    )
}
