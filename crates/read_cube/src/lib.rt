// Expansion: the cells of a model into a lent cube.
#![tactic(auto)]

ghost use Rattle.std.specs.Prelude.{◌≡◌, ◌+◌, ◌*◌, ◌^◌, ◌<◌, ◌≤◌, eqb, length};
ghost use Rattle.basics.specs.Limits.{deepest_cube, cube_kids};
ghost use Rattle.basics.specs.Refusals.{no_of};
ghost use Rattle.nodes.specs.Lent.{words_in};
ghost use Rattle.nodes.specs.Words.{fact_of};
ghost use Rattle.arena.specs.Seen.{seen_in};
ghost use Rattle.read_cell.specs.Calls.{expanded, expand_no, expand_of};
ghost use Rattle.read_cube.specs.Models.{fill_row, fill_plane, fill_block, offset as offset_of, grow, parts_to, pair_of, eight_of, cube_from};

use arena::{Seen, fit, is_live_or_empty, slot_of};
use basics::{DEEPEST_CUBE, Kids, Refusal};
use ids::{BlockId, LOWEST_LEAF};
use nodes::{children, kid};
use read_cell::value;

// ---- one value into part of a cube

// n cells from `at`.
fn fill_row(cube: &mut [u16], at: usize, n: usize, v: u16)
    requires { at + n ≤ length cube.old }
    ensures { cube.new ≡ fill_row at n v cube.old }
{
    cube[at..at + n].fill(v);
}

// n rows of n cells, `row` apart.
fn fill_plane(cube: &mut [u16], at: usize, n: usize, row: usize, v: u16)
    requires n_bound { (n ≤ 64) × (row ≤ 64) }
    requires n_bound_2 { at + n * row + n ≤ length cube.old + row }
    ensures { cube.new ≡ fill_plane row at n n v cube.old }
{
    for z in 0..n {
        fill_row(cube, at + z * row, n, v);
    }
}

// n planes of n rows of n cells, `plane` apart.
fn fill_block(cube: &mut [u16], at: usize, n: usize, row: usize, plane: usize, v: u16)
    requires n_bound { (n ≤ 64) × (row ≤ 64) × (plane ≤ 4096) }
    requires n_bound_2 { at + n * plane + n * row + n ≤ length cube.old + plane + row }
    ensures { cube.new ≡ fill_block row plane at n n v cube.old }
{
    for y in 0..n {
        fill_plane(cube, at + y * plane, n, row, v);
    }
}

// The same, with loops of their own for the sides of octants: `fill` of a slice is slow where the compiler doesn't know how long it is.
fn fill_leaf(cube: &mut [u16], at: usize, n: usize, row: usize, plane: usize, v: u16)
    requires n_bound { (n ≤ 64) × (row ≤ 64) × (plane ≤ 4096) }
    requires n_bound_2 { at + n * plane + n * row + n ≤ length cube.old + plane + row }
    ensures { cube.new ≡ fill_block row plane at n n v cube.old }
{
    match n {
        32 => fill_block(cube, at, 32, row, plane, v),
        16 => fill_block(cube, at, 16, row, plane, v),
        8 => fill_block(cube, at, 8, row, plane, v),
        4 => fill_block(cube, at, 4, row, plane, v),
        _ => fill_block(cube, at, n, row, plane, v),
    }
}

// ---- octants

// v where the bit is 1, else 0.
fn times_bit(bit: usize, v: usize) -> usize
    requires { bit < 2 }
    ensures { (result ≡ bit * v) × (result ≤ v) }
{
    if bit == 0 { 0 } else { v }
}

// How far octant c of side h lies from the corner.
fn offset(c: usize, h: usize, row: usize, plane: usize) -> usize
    requires { (c < 8) × (h ≤ 64) × (row ≤ 64) × (plane ≤ 4096) }
    ensures { (result ≡ offset_of row plane h c) × (result ≤ h * plane + h * row + h) }
{
    times_bit(c % 2, h) + times_bit(c / 2 % 2, h * plane) + times_bit(c / 4, h * row)
}

// The values of two ids, side by side.
fn fill_pair(facts: &[u32], cube: &mut [u16], a: u64, b: u64, at: usize)
    requires { at + 2 ≤ length cube.old }
    ensures { cube.new ≡ pair_of (fact_of facts.now) a b at cube.old }
{
    cube[at] = value(facts, a);
    cube[at + 1] = value(facts, b);
}

// The values of eight ids, as octants that are single cells.
fn fill_eight(facts: &[u32], cube: &mut [u16], ids: Kids, at: usize, row: usize, plane: usize)
    requires { at + plane + row + 2 ≤ length cube.old }
    ensures { cube.new ≡ eight_of (fact_of facts.now) ids row plane at cube.old }
{
    fill_pair(facts, cube, ids[0], ids[1], at);
    fill_pair(facts, cube, ids[2], ids[3], at + plane);
    fill_pair(facts, cube, ids[4], ids[5], at + row);
    fill_pair(facts, cube, ids[6], ids[7], at + plane + row);
}

// The eight octants of a branch that are single cells, in turn.
// Kept: here and in the next two, the inner loop, the two tables apart: through a `Seen` behind a reference expansion takes a quarter longer.
fn fill_cells(
    kids: &[u64],
    facts: &[u32],
    cube: &mut [u16],
    id: u64,
    at: usize,
    row: usize,
    plane: usize,
)
    requires { at + plane + row + 2 ≤ length cube.old }
    ensures { cube.new ≡ parts_to (words_in kids.now facts.now) cube_kids row plane 0 1 id at 8 cube.old }
{
    fill_eight(facts, cube, children(kids, slot_of(id)), at, row, plane);
}

// One octant of side 2 of the lent cube, all 0 before: its corner at `at`.
fn fill_small(
    kids: &[u64],
    facts: &[u32],
    cube: &mut [u16],
    id: u64,
    at: usize,
    row: usize,
    plane: usize,
)
    requires row_bound { (row ≤ 64) × (plane ≤ 4096) }
    requires row_bound_2 { at + plane + row + 2 ≤ length cube.old }
    ensures { cube.new ≡ grow (words_in kids.now facts.now) cube_kids row plane 1 2 id at cube.old }
{
    if id == BlockId::EMPTY.0 {
        return;
    }
    if LOWEST_LEAF <= id {
        fill_block(cube, at, 2, row, plane, value(facts, id));
        return;
    }
    fill_cells(kids, facts, cube, id, at, row, plane);
}

// The eight octants of a branch that have side 2, in turn.
fn fill_smalls(
    kids: &[u64],
    facts: &[u32],
    cube: &mut [u16],
    id: u64,
    at: usize,
    row: usize,
    plane: usize,
)
    requires row_bound { (row ≤ 64) × (plane ≤ 4096) }
    requires row_bound_2 { at + 3 * plane + 3 * row + 4 ≤ length cube.old }
    ensures { cube.new ≡ parts_to (words_in kids.now facts.now) cube_kids row plane 1 2 id at 8 cube.old }
{
    let s = slot_of(id);
    for c in 0..8 {
        let e = at + offset(c, 2, row, plane);
        fill_small(kids, facts, cube, kid(kids, s, c), e, row, plane);
    }
}

// One octant of the lent cube, all 0 before: its corner at `at`, `left` levels above the cells.
#[cycle(fill_octant_fill_octants)]
fn fill_octant(
    seen: &Seen<'_>,
    cube: &mut [u16],
    id: u64,
    at: usize,
    left: u32,
    side: usize,
    row: usize,
    plane: usize,
)
    requires side_value { (side ≡ 2 ^ left) × (side ≤ 64) × (row ≤ 64) × (plane ≤ 4096) }
    requires side_bound { at + side * plane + side * row + side ≤ length cube.old + plane + row }
    ensures { cube.new ≡ grow (words_in seen.now.kids.now seen.now.facts.now) cube_kids row plane left side id at cube.old }
{
    if left == 0 {
        cube[at] = value(seen.facts, id);
        return;
    }
    if id == BlockId::EMPTY.0 {
        return;
    }
    if LOWEST_LEAF <= id {
        fill_leaf(cube, at, side, row, plane, value(seen.facts, id));
        return;
    }
    if left == 1 {
        fill_cells(seen.kids, seen.facts, cube, id, at, row, plane);
        return;
    }
    if left == 2 {
        fill_smalls(seen.kids, seen.facts, cube, id, at, row, plane);
        return;
    }
    fill_octants(seen, cube, id, at, left - 1, side / 2, row, plane);
}

// The eight octants of a branch, each of side h, in turn.
#[cycle(fill_octant_fill_octants)]
fn fill_octants(
    seen: &Seen<'_>,
    cube: &mut [u16],
    id: u64,
    at: usize,
    left: u32,
    h: usize,
    row: usize,
    plane: usize,
)
    requires h_value { (h ≡ 2 ^ left) × (h ≤ 32) × (row ≤ 64) × (plane ≤ 4096) }
    requires h_bound { at + 2 * h * plane + 2 * h * row + 2 * h ≤ length cube.old + plane + row }
    ensures { cube.new ≡ parts_to (words_in seen.now.kids.now seen.now.facts.now) cube_kids row plane left h id at 8 cube.old }
{
    let s = slot_of(id);
    for c in 0..8 {
        let e = at + offset(c, h, row, plane);
        fill_octant(seen, cube, kid(seen.kids, s, c), e, left, h, row, plane);
    }
}

// The whole cube of side s: one value where the root is a leaf, else 0 and then the root's octants.
fn fill_cube(seen: &Seen<'_>, cube: &mut [u16], id: u64, depth: u32, s: usize)
    requires s_value { (s ≡ 2 ^ depth) × (s ≤ 64) }
    requires s_bound { 0 + s * (s * s) + s * s + s ≤ length cube.old + s * s + s }
    ensures { cube.new ≡ cube_from (words_in seen.now.kids.now seen.now.facts.now) s depth id cube.old }
{
    let n = cube.len();
    if LOWEST_LEAF <= id {
        fill_row(cube, 0, n, value(seen.facts, id));
        return;
    }
    fill_row(cube, 0, n, 0);
    fill_octant(seen, cube, id, 0, depth, s, s, s * s);
}

// 2^d
fn side_of(d: u32) -> usize
    requires { d ≤ deepest_cube }
    ensures { (result ≡ 2 ^ d) × (result ≤ 64) }
{
    1usize << d
}

// Is n 8^d?
fn is_cube(d: u32, n: usize) -> bool
    requires { d ≤ deepest_cube }
    ensures { result ≡ eqb n (8 ^ d) }
{
    n == 1usize << (3 * d)
}

// Refuses an expansion into a cube of n values by the lowest refusal that applies.
fn may_expand(seen: Seen<'_>, id: u64, depth: u32, n: usize) -> Result<(), Refusal>
    ensures { no_of result ≡ expand_no (seen_in seen.entry) id depth n }
{
    if !fit(
        seen.capacity,
        seen.kids.len(),
        seen.facts.len(),
        seen.find.len(),
    ) {
        return Err(Refusal::Size);
    }
    if depth > DEEPEST_CUBE {
        return Err(Refusal::Depth);
    }
    if !is_live_or_empty(seen.capacity, seen.facts, id) {
        return Err(Refusal::NotLive);
    }
    if !is_cube(depth, n) {
        return Err(Refusal::Cube);
    }
    Ok(())
}

// Writes the cells of the cube of the depth under id, or refuses: 1, 2, 4 or 9.
pub fn to_vec(seen: Seen<'_>, id: BlockId, depth: u32, cube: &mut [u16]) -> Result<(), Refusal>
    ensures { expanded (no_of result) cube.new ≡ expand_of (seen_in seen.entry) id.0 depth cube.old }
{
    may_expand(seen, id.0, depth, cube.len())?;
    fill_cube(&seen, cube, id.0, depth, side_of(depth));
    Ok(())
}
