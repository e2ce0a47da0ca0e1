// Two roots side by side, counted: in how many cells they differ.
#![tactic(auto)]

ghost use Rattle.std.specs.Prelude.{◌≡◌, true, ℕ, ◌<◌, ◌≤◌};
ghost use Rattle.basics.specs.Limits.{deepest, cube_kids};
ghost use Rattle.nodes.specs.Lent.{words_in};
ghost use Rattle.arena.specs.Seen.{seen_in};
ghost use Rattle.arena.specs.Tables.{W};
ghost use Rattle.compare_pairs.specs.Models.{goes_on};
ghost use Rattle.compare_count.specs.Count.{count_of};
ghost use Rattle.compare_count.specs.Models.{count_in, block_count, eight_to, places_count};

use arena::{Seen, slot_of};
use basics::{CUBE_KIDS, DEEPEST};
use compare_pairs::goes_on;
use ids::BlockId;
use nodes::children;
use read_cell::value;
use tree::part_of;

// ---- the cells of a pair

// The cells of a block of 8^left with one value on each side: all of them differ, or none.
fn count_block(u: u16, v: u16, left: u32) -> u32
    requires { left ≤ deepest }
    ensures { result ≡ block_count u v left }
{
    if u == v { 0 } else { 1u32 << (3 * left) }
}

// The cells of eight places, whose values on both sides `u` and `v` say: how many differ.
fn count_eight<F: Fn(usize) -> u16, G: Fn(usize) -> u16>(u: F, v: G) -> u32
    requires lefts { (c : ℕ) → c < cube_kids → F.pre u c }
    requires rights { (c : ℕ) → c < cube_kids → G.pre v c }
    ensures { (f g : ℕ → ℕ) → ((c y : ℕ) → c < cube_kids → F.post u c y → y ≡ f c) → ((c y : ℕ) → c < cube_kids → G.post v c y → y ≡ g c)
        → result ≡ eight_to f g cube_kids }
{
    let mut cells = 0;
    for c in 0..CUBE_KIDS {
        cells += count_block(u(c), v(c), 0);
    }
    cells
}

// The eight cells of an opened pair, one level above them; what has one value is read once.
fn count_cells(seen: &Seen<'_>, a: u64, b: u64) -> u32
    requires { goes_on 1 a b ≡ true }
    ensures { result ≡ places_count (W (seen_in seen.now)) 0 a b cube_kids }
{
    if BlockId(a).is_end() {
        let u = value(seen.facts, a);
        let row = children(seen.kids, slot_of(b));
        return count_eight(|_| u, |c| value(seen.facts, row[c]));
    }
    if BlockId(b).is_end() {
        let row = children(seen.kids, slot_of(a));
        let v = value(seen.facts, b);
        return count_eight(|c| value(seen.facts, row[c]), |_| v);
    }
    let lefts = children(seen.kids, slot_of(a));
    let rights = children(seen.kids, slot_of(b));
    count_eight(
        |c| value(seen.facts, lefts[c]),
        |c| value(seen.facts, rights[c]),
    )
}

// ---- pairs and places

// A pair, `left` levels above the cells.
#[cycle(count_pair_count_places)]
fn count_pair(seen: &Seen<'_>, a: u64, b: u64, left: u32) -> u32
    requires { left ≤ deepest }
    ensures { result ≡ count_in cube_kids (W (seen_in seen.now)) left a b }
{
    if a == b {
        return 0;
    }
    if goes_on(a, b, left) {
        if left == 1 {
            return count_cells(seen, a, b);
        }
        return count_places(seen, a, b, left - 1);
    }
    count_block(value(seen.facts, a), value(seen.facts, b), left)
}

// The eight places of an opened pair in turn, each `left` levels above the cells.
#[cycle(count_pair_count_places)]
fn count_places(seen: &Seen<'_>, a: u64, b: u64, left: u32) -> u32
    requires { left < deepest }
    ensures { result ≡ places_count (W (seen_in seen.now)) left a b cube_kids }
{
    let mut cells = 0;
    for c in 0..CUBE_KIDS {
        let p = part_of(seen.kids, a, c);
        let q = part_of(seen.kids, b, c);
        cells += count_pair(seen, p, q, left);
    }
    cells
}

// In how many cells of a cube of the depth two ids differ; of a depth above 6 in none.
pub fn count_differing(kids: &[u64], facts: &[u32], a: u64, b: u64, depth: u32) -> u32
    ensures { result ≡ count_of (words_in kids.now facts.now) a b depth }
{
    if DEEPEST < depth {
        return 0;
    }
    // The walk reads the nodes alone: it asks for no state and no finding table.
    let seen = Seen {
        capacity: 0,
        slots: 0,
        kids,
        facts,
        find: &[],
    };
    count_pair(&seen, a, b, depth)
}
