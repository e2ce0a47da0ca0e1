// Each public call's contract determines its answer and the tables afterwards (proofs/One.antt). Nobody calls the functions below: each shows that the
// contract of the call in its body is the one of which that is proved (specs/).
#![tactic(auto)]

ghost use Rattle.unique.specs.Asked.{PlainMeets, from_raw, raw, packing_no, new_leaf, new_branch, index, generation, types, mask, has_child, is_leaf, is_branch, is_invalid, is_valid, is_empty, text, path, position, child, parse};
ghost use Rattle.unique.specs.Asked.{Meets, fresh, hold, counts, leaf, branch, release, look, expand, edit, enter, compare, check};
ghost use Rattle.unique.specs.Listing.{ListingMeets, start, records, reading_records, ending, side_records, side_short, second, cells, closing};
ghost use Rattle.unique.specs.Exports as exports;
ghost use Rattle.unique.specs.Exports.{ExportMeets};
ghost use Rattle.arena.specs.Lent.{before};
ghost use Rattle.arena.specs.Seen.{seen_in};

use arena::{Answer, Arena, Counted, Counts, Made, Seen};
use basics::{KID_WORDS, Refusal};
use capi_ids::Packed;
use capi_paths::{Cell, Child, Text};
use compare::Compared;
use compare_list::Found;
use ids::BlockId;
use ids_text::IdText;
use listing::{Ran, Run, Step};
use metres::{Reading, ReadingFields};
use month_listing::{Cells, Side};
use paths::IVec3;
use read_cell::Looked;

// ---- calls that are lent no tables

fn from_raw_meets(number: u64) -> BlockId
    ensures { PlainMeets (from_raw number) result }
{
    BlockId::from_raw(number)
}

fn raw_meets(id: BlockId) -> u64
    ensures { PlainMeets (raw id) result }
{
    id.raw()
}

fn packing_no_meets(turn: u16) -> u32
    ensures { PlainMeets (packing_no turn) result }
{
    BlockId::packing_no(turn)
}

fn new_leaf_meets(place: u32, turn: u16) -> BlockId
    ensures { PlainMeets (new_leaf place turn) result }
{
    BlockId::new_leaf(place, turn)
}

fn new_branch_meets(place: u32, turn: u16, leaves: u8, there: u8) -> BlockId
    ensures { PlainMeets (new_branch place turn leaves there) result }
{
    BlockId::new_branch(place, turn, leaves, there)
}

fn index_meets(id: BlockId) -> u32
    ensures { PlainMeets (index id) result }
{
    id.index()
}

fn generation_meets(id: BlockId) -> u16
    ensures { PlainMeets (generation id) result }
{
    id.generation()
}

fn types_meets(id: BlockId) -> u8
    ensures { PlainMeets (types id) result }
{
    id.types()
}

fn mask_meets(id: BlockId) -> u8
    ensures { PlainMeets (mask id) result }
{
    id.mask()
}

fn has_child_meets(id: BlockId, number: u8) -> bool
    ensures { PlainMeets (has_child id number) result }
{
    id.has_child(number)
}

fn is_leaf_meets(id: BlockId) -> bool
    ensures { PlainMeets (is_leaf id) result }
{
    id.is_leaf()
}

fn is_branch_meets(id: BlockId) -> bool
    ensures { PlainMeets (is_branch id) result }
{
    id.is_branch()
}

fn is_invalid_meets(id: BlockId) -> bool
    ensures { PlainMeets (is_invalid id) result }
{
    id.is_invalid()
}

fn is_valid_meets(id: BlockId) -> bool
    ensures { PlainMeets (is_valid id) result }
{
    id.is_valid()
}

fn is_empty_meets(id: BlockId) -> bool
    ensures { PlainMeets (is_empty id) result }
{
    id.is_empty()
}

fn text_meets(id: BlockId) -> IdText
    ensures { PlainMeets (text id) result }
{
    ids_text::text(id)
}

fn path_meets(cell: IVec3) -> u32
    ensures { PlainMeets (path cell) result }
{
    paths::encode_child_index_path(cell)
}

fn position_meets(code: u32) -> Result<IVec3, Refusal>
    ensures { PlainMeets (position code) result }
{
    paths::decode_child_index_path(code)
}

fn child_meets(cell: IVec3, level: u32, depth: u32) -> Result<usize, Refusal>
    ensures { PlainMeets (child cell level depth) result }
{
    paths::child_index2(cell, level, depth)
}

fn parse_meets(bytes: &[u8]) -> Result<Reading, Refusal>
    ensures { PlainMeets (parse bytes.now) result }
{
    metres::parse(bytes)
}

// ---- calls on lent tables

fn fresh_meets(capacity: usize, kids: &mut [u64], facts: &mut [u32], find: &mut [u16]) -> Answer
    ensures { Meets (fresh capacity kids.old facts.old find.old) (result, kids.new, facts.new, find.new) }
{
    arena_hold::fresh(capacity, kids, facts, find)
}

fn hold_meets(arena: Arena, kids: &[u64], facts: &mut [u32], find: &[u16], id: BlockId) -> Answer
    ensures { Meets (hold (before arena kids.now facts.old find.now) id) (result, facts.new) }
{
    arena_hold::hold(arena, kids, facts, find, id)
}

fn counts_meets(seen: Seen<'_>, id: BlockId) -> Result<Counts, Refusal>
    ensures { Meets (counts (seen_in seen.entry) id) result }
{
    arena_hold::counts(seen, id)
}

fn leaf_meets(
    arena: Arena,
    kids: &mut [u64],
    facts: &mut [u32],
    find: &mut [u16],
    value: u16,
) -> Made
    ensures { Meets (leaf (before arena kids.old facts.old find.old) value) (result, kids.new, facts.new, find.new) }
{
    arena_leaf::intern_leaf(arena, kids, facts, find, value)
}

fn branch_meets(
    arena: Arena,
    kids: &mut [u64],
    facts: &mut [u32],
    find: &mut [u16],
    children: [BlockId; KID_WORDS],
) -> Made
    ensures { Meets (branch (before arena kids.old facts.old find.old) children) (result, kids.new, facts.new, find.new) }
{
    arena_branch::intern_branch(arena, kids, facts, find, children)
}

fn release_meets(
    arena: Arena,
    kids: &mut [u64],
    facts: &mut [u32],
    find: &mut [u16],
    id: BlockId,
) -> Answer
    ensures { Meets (release (before arena kids.old facts.old find.old) id) (result, kids.new, facts.new, find.new) }
{
    arena_release::release(arena, kids, facts, find, id)
}

fn look_meets(seen: Seen<'_>, id: BlockId, depth: u32, position: IVec3) -> Result<u16, Refusal>
    ensures { Meets (look (seen_in seen.entry) id depth position) result }
{
    read_cell::get_at_depth(seen, id, depth, position)
}

fn expand_meets(seen: Seen<'_>, id: BlockId, depth: u32, cube: &mut [u16]) -> Result<(), Refusal>
    ensures { Meets (expand (seen_in seen.entry) id depth cube.old) (result, cube.new) }
{
    read_cube::to_vec(seen, id, depth, cube)
}

fn edit_meets(
    arena: Arena,
    kids: &mut [u64],
    facts: &mut [u32],
    find: &mut [u16],
    root: BlockId,
    depth: u32,
    position: IVec3,
    value: u16,
) -> Made
    ensures { Meets (edit (before arena kids.old facts.old find.old) root depth position value) (result, kids.new, facts.new, find.new) }
{
    edit::set_voxel(arena, kids, facts, find, root, depth, position, value)
}

fn enter_meets(
    arena: Arena,
    kids: &mut [u64],
    facts: &mut [u32],
    find: &mut [u16],
    root: BlockId,
    depth: u32,
    k: u32,
    bytes: &[u8],
) -> Made
    ensures { Meets (enter (before arena kids.old facts.old find.old) root depth k bytes.now) (result, kids.new, facts.new, find.new) }
{
    readings::enter_reading(arena, kids, facts, find, root, depth, k, bytes)
}

fn compare_meets(
    seen: Seen<'_>,
    left: BlockId,
    right: BlockId,
    depth: u32,
    codes: &mut [u32],
    lefts: &mut [u16],
    rights: &mut [u16],
) -> Result<Found, Refusal>
    ensures { Meets (compare (seen_in seen.entry) left right depth codes.old lefts.old rights.old) (result, codes.new, lefts.new, rights.new) }
{
    compare::compare(seen, left, right, depth, codes, lefts, rights)
}

fn check_meets(arena: Arena, kids: &[u64], facts: &mut [u32], find: &[u16]) -> bool
    ensures { Meets (check (before arena kids.now facts.old find.now)) (result, facts.new) }
{
    check_arena::check_arena(arena, kids, facts, find)
}

// ---- exports that answer otherwise than the calls of the same names

fn exported_leaf_meets(place: u32, turn: u16) -> Packed
    ensures { ExportMeets (exports.new_leaf place turn) result }
{
    capi_ids::fenpiling_new_leaf(place, turn)
}

fn exported_branch_meets(place: u32, turn: u16, leaves: u8, there: u8) -> Packed
    ensures { ExportMeets (exports.new_branch place turn leaves there) result }
{
    capi_ids::fenpiling_new_branch(place, turn, leaves, there)
}

fn exported_decode_meets(code: u32) -> Cell
    ensures { ExportMeets (exports.decode code) result }
{
    capi_paths::fenpiling_decode_child_index_path(code)
}

fn exported_child_meets(x: i32, y: i32, z: i32, level: u32, depth: u32) -> Child
    ensures { ExportMeets (exports.child x y z level depth) result }
{
    capi_paths::fenpiling_child_index2(x, y, z, level, depth)
}

fn exported_text_meets(number: u64) -> Text
    ensures { ExportMeets (exports.text number) result }
{
    capi_paths::fenpiling_text(number)
}

fn exported_parse_meets(bytes: &[u8]) -> ReadingFields
    ensures { ExportMeets (exports.parse bytes.now) result }
{
    capi_readings::fenpiling_parse_reading(bytes)
}

fn exported_counts_meets(
    arena: Arena,
    kids: &[u64],
    facts: &[u32],
    find: &[u16],
    id: u64,
) -> Counted
    ensures { ExportMeets (exports.counts (before arena kids.now facts.now find.now) id) result }
{
    capi_arena::fenpiling_counts(arena, kids, facts, find, id)
}

fn exported_look_meets(
    arena: Arena,
    kids: &[u64],
    facts: &[u32],
    find: &[u16],
    id: u64,
    depth: u32,
    position: IVec3,
) -> Looked
    ensures { ExportMeets (exports.look (before arena kids.now facts.now find.now) id depth position) result }
{
    capi_model::fenpiling_get_at_depth(arena, kids, facts, find, id, depth, position)
}

fn exported_expand_meets(
    arena: Arena,
    kids: &[u64],
    facts: &[u32],
    find: &[u16],
    id: u64,
    depth: u32,
    cube: &mut [u16],
) -> u32
    ensures { ExportMeets (exports.expand (before arena kids.now facts.now find.now) id depth cube.old) (result, cube.new) }
{
    capi_model::fenpiling_to_vec(arena, kids, facts, find, id, depth, cube)
}

fn exported_compare_meets(
    arena: Arena,
    kids: &[u64],
    facts: &[u32],
    find: &[u16],
    left: u64,
    right: u64,
    depth: u32,
    codes: &mut [u32],
    lefts: &mut [u16],
    rights: &mut [u16],
) -> Compared
    ensures { ExportMeets (exports.compare (before arena kids.now facts.now find.now) left right depth codes.old lefts.old rights.old) (result, codes.new, lefts.new, rights.new) }
{
    capi_compare::fenpiling_compare(
        arena, kids, facts, find, left, right, depth, codes, lefts, rights,
    )
}

// ---- the listings of edit records, of readings and of two months

fn start_meets(capacity: usize, kids: &mut [u64], facts: &mut [u32], find: &mut [u16]) -> Step
    ensures { ListingMeets (start capacity kids.old facts.old find.old) (result, kids.new, facts.new, find.new) }
{
    listing::start(capacity, kids, facts, find)
}

fn records_meets(
    run: Run,
    kids: &mut [u64],
    facts: &mut [u32],
    find: &mut [u16],
    bytes: &[u8],
    out: &mut [u8],
) -> Ran
    ensures { ListingMeets (records run kids.old facts.old find.old bytes.now out.old) (result, kids.new, facts.new, find.new, out.new) }
{
    edit_listing::edit_records(run, kids, facts, find, bytes, out)
}

fn reading_records_meets(
    run: Run,
    kids: &mut [u64],
    facts: &mut [u32],
    find: &mut [u16],
    k: u32,
    bytes: &[u8],
    out: &mut [u8],
) -> Ran
    ensures { ListingMeets (reading_records run kids.old facts.old find.old k bytes.now out.old) (result, kids.new, facts.new, find.new, out.new) }
{
    reading_listing::enter_records(run, kids, facts, find, k, bytes, out)
}

fn ending_meets(run: Run, cut: usize, out: &mut [u8]) -> usize
    ensures { ListingMeets (ending run cut out.old) (result, out.new) }
{
    listing::ending(run, cut, out)
}

fn side_records_meets(
    side: Side,
    run: Run,
    kids: &mut [u64],
    facts: &mut [u32],
    find: &mut [u16],
    bytes: &[u8],
    out: &mut [u8],
) -> Ran
    ensures { ListingMeets (side_records side run kids.old facts.old find.old bytes.now out.old) (result, kids.new, facts.new, find.new, out.new) }
{
    month_listing::side_records(side, run, kids, facts, find, bytes, out)
}

fn side_short_meets(side: Side, cut: usize, out: &mut [u8]) -> usize
    ensures { ListingMeets (side_short side cut out.old) (result, out.new) }
{
    month_listing::side_short(side, cut, out)
}

fn second_side_meets(first: Run) -> Run
    ensures { ListingMeets (second first) result }
{
    month_listing::second_side(first)
}

fn cell_lines_meets(
    codes: &[u32],
    lefts: &[u16],
    rights: &[u16],
    from: usize,
    count: usize,
    out: &mut [u8],
) -> Cells
    ensures { ListingMeets (cells codes.now lefts.now rights.now from count out.old) (result, out.new) }
{
    month_listing::cell_lines(codes, lefts, rights, from, count, out)
}

fn closing_meets(compared: Compared, run: Run, out: &mut [u8]) -> usize
    ensures { ListingMeets (closing compared run out.old) (result, out.new) }
{
    month_listing::closing(compared, run, out)
}
