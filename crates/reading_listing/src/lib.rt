// The readings of the program `survey`: records of forty bytes, entered one after the other at depth 6 with an edge of 2^-k metres, and the lines that say
// what came of each. What the call answers and leaves: specs/Listing.antt here and in the crate listing; what a record says: the crate metres.
//
// After an accepted record, a pause too, the old root is released; after a refused one it stays. A cut last record is entered like any other, and refused.
#![tactic(auto)]

ghost use Rattle.std.specs.Prelude.{◌≡◌, ◌<◌, ◌≤◌, length};
ghost use Rattle.basics.specs.Limits.{deepest, cube_kids};
ghost use Rattle.arena.specs.Calls.{Fair};
ghost use Rattle.listing.specs.Lent.{before, told};
ghost use Rattle.listing.specs.Listing.{taken_of, told_of};
ghost use Rattle.reading_listing.specs.Listing.{readings, all_in};

use arena::{Arena, Made};
use ids::BlockId;
use listing::{Kind, Ran, Run};
use metres::RECORD_BYTES;

// The depth of the cells.
const DEPTH: u32 = 6;

// How many records there are, a cut last one too.
fn records_in(bytes: &[u8]) -> usize
    ensures { result ≡ all_in (length bytes.now) }
{
    bytes.len().div_ceil(RECORD_BYTES)
}

// Records of readings, with an edge of 2^-k metres, and a line each.
#[derive(Clone, Copy)]
struct Readings {
    k: u32,
}

impl Kind for Readings {
    ghost records = { λ kind. readings kind.k };

    fn width(&self) -> usize {
        RECORD_BYTES
    }

    fn enter(
        &self,
        arena: Arena,
        kids: &mut [u64],
        facts: &mut [u32],
        find: &mut [u16],
        root: BlockId,
        bytes: &[u8],
    ) -> Made {
        readings::enter_reading(arena, kids, facts, find, root, DEPTH, self.k, bytes)
    }

    fn put(&self, out: &mut [u8], number: u64, no: u32, root: BlockId) -> usize {
        listing::put_line(out, number, no, root)
    }
}

// Enters the records of `bytes`, as far as `out` has room for their lines, and writes the lines at the start of `out`.
pub fn enter_records(
    run: Run,
    kids: &mut [u64],
    facts: &mut [u32],
    find: &mut [u16],
    k: u32,
    bytes: &[u8],
    out: &mut [u8],
) -> Ran
    ensures { (result.records ≡ taken_of (all_in (length bytes.now)) (length out.old))
        × (Fair cube_kids deepest (before run kids.old facts.old find.old).tables
        → told result kids.new facts.new find.new out.new ≡ told_of (readings k) (before run kids.old facts.old find.old) bytes.now out.old result.records) }
{
    let records = records_in(bytes);
    listing::list_records(&Readings { k }, records, run, kids, facts, find, bytes, out)
}
