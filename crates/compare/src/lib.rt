// Comparison: two roots of one arena side by side, cell by cell.
#![tactic(auto)]

ghost use Rattle.std.specs.Prelude.{◌≡◌, ◌≤◌, leb, length};
ghost use Rattle.basics.specs.Limits.{deepest, cube_kids};
ghost use Rattle.basics.specs.Refusals.{no_of};
ghost use Rattle.nodes.specs.Words.{fact_of};
ghost use Rattle.arena.specs.Seen.{seen_in};
ghost use Rattle.arena.specs.Tables.{W};
ghost use Rattle.compare_pairs.specs.Differing.{differing};
ghost use Rattle.compare.specs.Compare.{answered, compared, compare_of};
ghost use Rattle.compare.specs.Models.{roots_by, first_no};

use arena::{Seen, fit, is_live_or_empty};
use basics::{DEEPEST, Refusal};
use compare_count::count_differing;
use compare_list::{Found, write_differing};
use ids::BlockId;
use new_value::height_at;

// The answer of a comparison for C: the refusal or 0, how many cells differ, how many pairs were opened.
// Kept: the refusal and the counts side by side, as C takes them.
#[repr(C)]
#[derive(Clone, Copy)]
pub struct Compared {
    pub no: u32,
    pub count: u32,
    pub opened: u32,
}

impl From<Result<Found, Refusal>> for Compared {
    ghost from_gives = { λ answer so. so ≡ answered answer };

    fn from(answer: Result<Found, Refusal>) -> Compared {
        match answer {
            Ok(found) => Compared {
                no: 0,
                count: found.cells,
                opened: found.opened,
            },
            Err(refusal) => Compared {
                no: u32::from(refusal),
                count: 0,
                opened: 0,
            },
        }
    }
}

// Refusals 4 and 8: each root is EMPTY or live, and neither is taller than the depth.
fn may_enter(seen: Seen<'_>, a: u64, b: u64, depth: u32) -> Result<(), Refusal>
    ensures { no_of result ≡ roots_by seen.entry.capacity (fact_of seen.entry.facts.now) a b depth }
{
    if !is_live_or_empty(seen.capacity, seen.facts, a)
        || !is_live_or_empty(seen.capacity, seen.facts, b)
    {
        return Err(Refusal::NotLive);
    }
    if depth < height_at(seen.facts, a) || depth < height_at(seen.facts, b) {
        return Err(Refusal::Tall);
    }
    Ok(())
}

// Refusals 1, 2, 4 and 8; the parts of the lent list are c, l and r long.
fn may_compare(
    seen: Seen<'_>,
    a: u64,
    b: u64,
    depth: u32,
    c: usize,
    l: usize,
    r: usize,
) -> Result<(), Refusal>
    ensures { no_of result ≡ first_no (seen_in seen.entry) a b depth c l r }
{
    let Seen {
        capacity,
        kids,
        facts,
        find,
        ..
    } = seen;
    if !fit(capacity, kids.len(), facts.len(), find.len()) || l != c || r != c {
        return Err(Refusal::Size);
    }
    if depth > DEEPEST {
        return Err(Refusal::Depth);
    }
    may_enter(seen, a, b, depth)
}

// Is there room for every cell that differs? Where there is room for the whole cube they need not be counted.
#[tactic(auto, using(crate::proofs::Calls::room_whole, crate::proofs::Calls::room_counted))]
fn has_room(seen: Seen<'_>, a: u64, b: u64, depth: u32, room: usize) -> bool
    requires { depth ≤ deepest }
    ensures { result ≡ leb (length (differing cube_kids (W (seen_in seen.entry)) depth a b)) room }
{
    1usize << (3 * depth) <= room
        || count_differing(seen.kids, seen.facts, a, b, depth) as usize <= room
}

// Lists the cells of a cube of the depth in which two roots differ, in rising path code with both values, and says how many they are and how many pairs of ids were opened; or refuses: 1, 2, 4, 8 or 15.
pub fn compare(
    seen: Seen<'_>,
    left: BlockId,
    right: BlockId,
    depth: u32,
    codes: &mut [u32],
    lefts: &mut [u16],
    rights: &mut [u16],
) -> Result<Found, Refusal>
    ensures { compared (answered result) codes.new lefts.new rights.new ≡ compare_of (seen_in seen.entry) left.0 right.0 depth codes.old lefts.old rights.old }
{
    may_compare(
        seen,
        left.0,
        right.0,
        depth,
        codes.len(),
        lefts.len(),
        rights.len(),
    )?;
    if !has_room(seen, left.0, right.0, depth, codes.len()) {
        return Err(Refusal::ShortList);
    }
    Ok(write_differing(
        seen.kids, seen.facts, left.0, right.0, depth, codes, lefts, rights,
    ))
}
