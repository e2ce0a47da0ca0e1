// Two roots side by side, listed: the cells that differ, in rising path code with both values, in a lent list of three parts.
#![tactic(auto)]

ghost use Rattle.std.specs.Prelude.{◌≡◌, true, ℕ, ◌+◌, ◌*◌, ◌^◌, ◌<◌, ◌≤◌, length, set};
ghost use Rattle.basics.specs.Limits.{deepest, cube_kids};
ghost use Rattle.nodes.specs.Lent.{words_in};
ghost use Rattle.arena.specs.Seen.{seen_in};
ghost use Rattle.arena.specs.Tables.{W};
ghost use Rattle.compare_pairs.specs.Differing.{if_differs, differing, opened as opened_in};
ghost use Rattle.compare_pairs.specs.Models.{goes_on, cells_in};
ghost use Rattle.compare_list.specs.Lists.{Same};
ghost use Rattle.compare_list.specs.List.{wrote, cells_written, written_of};
ghost use Rattle.compare_list.specs.Models.{most_cells, Laid, block as block_of, eight_to, places_to, opened_to};

mod list;

use arena::{Seen, slot_of};
use basics::{CUBE_KIDS, DEEPEST};
use compare_pairs::goes_on;
use ids::BlockId;
use list::List;
use nodes::children;
use read_cell::value;
use tree::part_of;

// How many cells differ, and how many pairs were opened.
#[derive(Clone, Copy)]
pub struct Found {
    pub cells: u32,
    pub opened: u32,
}

// How far a walk came: the place after the last cell written, and the pairs opened.
#[derive(Clone, Copy)]
struct Walk {
    at: usize,
    opened: u32,
}

// ---- cells

// One cell at a place of the list; nothing past the end.
fn put(list: &mut List<'_>, at: usize, code: u32, u: u16, v: u16)
    ensures same { Same list.old list.new }
    ensures codes { list.new.codes.now ≡ set list.old.codes.now at code }
    ensures lefts { list.new.lefts.now ≡ set list.old.lefts.now at u }
    ensures rights { list.new.rights.now ≡ set list.old.rights.now at v }
{
    if at < list.codes.len() {
        list.codes[at] = code;
        list.lefts[at] = u;
        list.rights[at] = v;
    }
}

// A block of `size` cells from the code `base` on, with one value on each side: all of them if the values differ.
fn block(list: &mut List<'_>, u: u16, v: u16, size: u32, base: u32, at: usize) -> Walk
    requires size_bound { (base + size ≤ most_cells) × (at ≤ base) }
    ensures same { Same list.old list.new }
    ensures laid { Laid at (block_of size base u v) 0 result.at result.opened list.old.codes.now list.old.lefts.now list.old.rights.now list.new.codes.now list.new.lefts.now list.new.rights.now }
{
    if u == v {
        return Walk { at, opened: 0 };
    }
    for i in 0..size {
        put(list, at + i as usize, base + i, u, v);
    }
    Walk {
        at: at + size as usize,
        opened: 0,
    }
}

// One cell, if its values differ. The place after it.
fn one_cell(list: &mut List<'_>, u: u16, v: u16, code: u32, at: usize) -> usize
    requires at_le_code { at ≤ code }
    ensures same { Same list.old list.new }
    ensures laid { Laid at (if_differs code u v) 0 result 0 list.old.codes.now list.old.lefts.now list.old.rights.now list.new.codes.now list.new.lefts.now list.new.rights.now }
    ensures upper_bound { result ≤ at + 1 }
{
    if u == v {
        return at;
    }
    put(list, at, code, u, v);
    at + 1
}

// The cells of eight places, whose values on both sides `u` and `v` say, from the code `base` on: those that differ. The place after the last.
fn put_eight<F: Fn(usize) -> u16, G: Fn(usize) -> u16>(
    list: &mut List<'_>,
    base: u32,
    at: usize,
    u: F,
    v: G,
) -> usize
    requires size_bound { (base + 8 ≤ most_cells) × (at ≤ base) }
    requires lefts { (c : ℕ) → c < cube_kids → F.pre u c }
    requires rights { (c : ℕ) → c < cube_kids → G.pre v c }
    ensures same { Same list.old list.new }
    ensures laid { (f g : ℕ → ℕ) → ((c y : ℕ) → c < cube_kids → F.post u c y → y ≡ f c) → ((c y : ℕ) → c < cube_kids → G.post v c y → y ≡ g c)
        → Laid at (eight_to base f g cube_kids) 0 result 0 list.old.codes.now list.old.lefts.now list.old.rights.now list.new.codes.now list.new.lefts.now list.new.rights.now }
{
    let mut to = at;
    for c in 0..CUBE_KIDS {
        let code = base + c as u32;
        to = one_cell(list, u(c), v(c), code, to);
    }
    to
}

// The eight cells of an opened pair, one level above them; what has one value is read once. The place after the last.
fn eight_cells(seen: &Seen<'_>, list: &mut List<'_>, a: u64, b: u64, base: u32, at: usize) -> usize
    requires b_value { (goes_on 1 a b ≡ true) × (base + 8 ≤ most_cells) × (at ≤ base) }
    ensures same { Same list.old list.new }
    ensures laid { Laid at (places_to (W (seen_in seen.now)) 0 base a b cube_kids) (opened_to (W (seen_in seen.now)) 0 a b cube_kids) result 1 list.old.codes.now list.old.lefts.now list.old.rights.now list.new.codes.now list.new.lefts.now list.new.rights.now }
{
    if BlockId(a).is_end() {
        let u = value(seen.facts, a);
        let row = children(seen.kids, slot_of(b));
        return put_eight(list, base, at, |_| u, |c| value(seen.facts, row[c]));
    }
    if BlockId(b).is_end() {
        let row = children(seen.kids, slot_of(a));
        let v = value(seen.facts, b);
        return put_eight(list, base, at, |c| value(seen.facts, row[c]), |_| v);
    }
    let us = children(seen.kids, slot_of(a));
    let vs = children(seen.kids, slot_of(b));
    put_eight(
        list,
        base,
        at,
        |c| value(seen.facts, us[c]),
        |c| value(seen.facts, vs[c]),
    )
}

// ---- pairs and places

// The differing cells of a pair, `left` levels above the cells, whose codes start at `base`: from place `at` of the list on.
#[cycle(pair_places)]
fn pair(
    seen: &Seen<'_>,
    list: &mut List<'_>,
    a: u64,
    b: u64,
    left: u32,
    size: u32,
    base: u32,
    at: usize,
) -> Walk
    requires size_value { (size ≡ cube_kids ^ left) × (base + size ≤ most_cells) × (at ≤ base) }
    ensures same { Same list.old list.new }
    ensures laid { Laid at (cells_in cube_kids (W (seen_in seen.now)) left base a b) (opened_in cube_kids (W (seen_in seen.now)) left a b) result.at result.opened list.old.codes.now list.old.lefts.now list.old.rights.now list.new.codes.now list.new.lefts.now list.new.rights.now }
    ensures at_bound { (result.at ≤ at + size) × (result.opened ≤ size) }
{
    if a == b {
        return Walk { at, opened: 0 };
    }
    if goes_on(a, b, left) {
        if left == 1 {
            return Walk {
                at: eight_cells(seen, list, a, b, base, at),
                opened: 1,
            };
        }
        return places(seen, list, a, b, left - 1, size / 8, base, at);
    }
    block(
        list,
        value(seen.facts, a),
        value(seen.facts, b),
        size,
        base,
        at,
    )
}

// The eight places of an opened pair in turn, each of `size` cells, `left` levels above them.
#[cycle(pair_places)]
fn places(
    seen: &Seen<'_>,
    list: &mut List<'_>,
    a: u64,
    b: u64,
    left: u32,
    size: u32,
    base: u32,
    at: usize,
) -> Walk
    requires size_value { (size ≡ cube_kids ^ left) × (base + 8 * size ≤ most_cells) × (at ≤ base) }
    ensures same { Same list.old list.new }
    ensures laid { Laid at (places_to (W (seen_in seen.now)) left base a b cube_kids) (opened_to (W (seen_in seen.now)) left a b cube_kids) result.at result.opened list.old.codes.now list.old.lefts.now list.old.rights.now list.new.codes.now list.new.lefts.now list.new.rights.now }
{
    let mut to = at;
    let mut opened: u32 = 1;
    for c in 0..CUBE_KIDS {
        let from = base + c as u32 * size;
        let p = part_of(seen.kids, a, c);
        let q = part_of(seen.kids, b, c);
        let w = pair(seen, list, p, q, left, size, from, to);
        to = w.at;
        opened += w.opened;
    }
    Walk { at: to, opened }
}

// ---- the list

// 8^d
fn size_of(d: u32) -> u32
    requires { d ≤ deepest }
    ensures { (result ≡ cube_kids ^ d) × (result ≤ most_cells) }
{
    1u32 << (3 * d)
}

// All differing cells of a cube of the depth, from the start of the list.
fn write_cells(
    seen: &Seen<'_>,
    a: u64,
    b: u64,
    depth: u32,
    codes: &mut [u32],
    lefts: &mut [u16],
    rights: &mut [u16],
) -> Found
    requires depth_le_deepest { depth ≤ deepest }
    requires lefts_len { (length lefts.old ≡ length codes.old) × (length rights.old ≡ length codes.old) }
    ensures { wrote result codes.new lefts.new rights.new ≡ cells_written (differing cube_kids (W (seen_in seen.now)) depth a b) (opened_in cube_kids (W (seen_in seen.now)) depth a b) codes.old lefts.old rights.old }
{
    let mut list = List {
        codes,
        lefts,
        rights,
    };
    let w = pair(seen, &mut list, a, b, depth, size_of(depth), 0, 0);
    Found {
        cells: w.at as u32,
        opened: w.opened,
    }
}

// Writes the cells of a cube of the depth in which two ids differ, in rising path code with both values, as far as the list has room; answers how many they are, and how many pairs were
// opened. Writes nothing, and answers none, where the parts of the list differ in length or the depth is above 6.
pub fn write_differing(
    kids: &[u64],
    facts: &[u32],
    a: u64,
    b: u64,
    depth: u32,
    codes: &mut [u32],
    lefts: &mut [u16],
    rights: &mut [u16],
) -> Found
    ensures { wrote result codes.new lefts.new rights.new ≡ written_of (words_in kids.now facts.now) a b depth codes.old lefts.old rights.old }
{
    if lefts.len() != codes.len() || rights.len() != codes.len() || DEEPEST < depth {
        return Found {
            cells: 0,
            opened: 0,
        };
    }
    // The walk reads the nodes alone: it asks for no state and no finding table.
    let seen = Seen {
        capacity: 0,
        slots: 0,
        kids,
        facts,
        find: &[],
    };
    write_cells(&seen, a, b, depth, codes, lefts, rights)
}
