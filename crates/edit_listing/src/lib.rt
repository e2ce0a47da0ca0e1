// The edits of the program `edits`: records of eight bytes, edited one after the other at depth 6, and the lines that say what came of each.
// What the call answers and leaves: specs/Listing.antt here and in the crate listing.
//
// A record is x, y, z and the value, 16 bits each, low byte first. After an accepted edit the old root is released; after a refused one it stays.
#![tactic(auto)]

ghost use Rattle.std.specs.Prelude.{◌≡◌, ◌+◌, ◌*◌, ◌<◌, ◌≤◌, length, get_or};
ghost use Rattle.basics.specs.Bytes.{word16};
ghost use Rattle.basics.specs.Limits.{deepest, cube_kids};
ghost use Rattle.arena.specs.Calls.{Fair};
ghost use Rattle.arena.specs.Lent.{before as tables_before, made};
ghost use Rattle.listing.specs.Lent.{before, told};
ghost use Rattle.listing.specs.Listing.{taken_of, told_of};
ghost use Rattle.edit_listing.specs.Listing.{record_width, cell_in, value_in, whole_in, edit_in, edits};

use arena::{Arena, Made};
use ids::BlockId;
use listing::{Kind, Ran, Run};
use paths::IVec3;

// A record has so many bytes.
pub const RECORD: usize = 8;

// The depth of the cell that a record names.
pub const DEPTH: u32 = 6;

// The byte at a place; 0 past the end.
fn byte_at(bytes: &[u8], at: usize) -> u8
    ensures { (result ≡ get_or bytes.now at 0) × (result < 256) }
{
    bytes.get(at).copied().unwrap_or(0)
}

// The number of 16 bits at a place of a record's bytes, low byte first.
fn word(bytes: &[u8], at: usize) -> u16
    requires { at < record_width }
    ensures { (result ≡ word16 bytes.now at) × (result < 65536) }
{
    u16::from_le_bytes([byte_at(bytes, at), byte_at(bytes, at + 1)])
}

// The cell of a record.
fn cell_in(bytes: &[u8]) -> IVec3
    ensures { result ≡ cell_in bytes.now }
{
    IVec3 {
        x: i32::from(word(bytes, 0)),
        y: i32::from(word(bytes, 2)),
        z: i32::from(word(bytes, 4)),
    }
}

// The value of a record.
fn value_in(bytes: &[u8]) -> u16
    ensures { result ≡ value_in bytes.now }
{
    word(bytes, 6)
}

// The edit that a record asks for, given its bytes; those that it lacks count as 0.
pub fn edit_record(
    arena: Arena,
    kids: &mut [u64],
    facts: &mut [u32],
    find: &mut [u16],
    root: BlockId,
    bytes: &[u8],
) -> Made
    ensures { Fair cube_kids deepest (tables_before arena kids.old facts.old find.old)
        → made arena result kids.new facts.new find.new ≡ edit_in (tables_before arena kids.old facts.old find.old) root.0 bytes.now }
{
    let cell = cell_in(bytes);
    let value = value_in(bytes);
    edit::set_voxel(arena, kids, facts, find, root, DEPTH, cell, value)
}

// Records of edits, with a line each.
struct Edits;

impl Kind for Edits {
    ghost records = { λ _. edits };

    fn width(&self) -> usize {
        RECORD
    }

    fn enter(
        &self,
        arena: Arena,
        kids: &mut [u64],
        facts: &mut [u32],
        find: &mut [u16],
        root: BlockId,
        bytes: &[u8],
    ) -> Made {
        edit_record(arena, kids, facts, find, root, bytes)
    }

    fn put(&self, out: &mut [u8], number: u64, no: u32, root: BlockId) -> usize {
        listing::put_line(out, number, no, root)
    }
}

// Edits the whole records of `bytes`, as far as `out` has room for their lines, and writes the lines at the start of `out`.
pub fn edit_records(
    run: Run,
    kids: &mut [u64],
    facts: &mut [u32],
    find: &mut [u16],
    bytes: &[u8],
    out: &mut [u8],
) -> Ran
    ensures { (result.records ≡ taken_of (whole_in (length bytes.now)) (length out.old))
        × (Fair cube_kids deepest (before run kids.old facts.old find.old).tables
        → told result kids.new facts.new find.new out.new ≡ told_of edits (before run kids.old facts.old find.old) bytes.now out.old result.records) }
{
    let whole = bytes.len() / RECORD;
    listing::list_records(&Edits, whole, run, kids, facts, find, bytes, out)
}
