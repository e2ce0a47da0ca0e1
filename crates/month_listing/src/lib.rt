// What the program `months` prints of two files of edit records: the refused records of each side, the cells in which the sides differ, and the numbers at
// the end. What each call answers and leaves: specs/Months.antt.
#![tactic(auto)]

ghost use Rattle.std.specs.Prelude.{◌≡◌, ℕ, ◌+◌, ◌-◌, ◌<◌, ◌≤◌, ◌^◌, List, [], ◌∷◌, ◌++◌, length};
ghost use Rattle.basics.specs.Limits.{deepest, cube_kids};
ghost use Rattle.basics.specs.Puts.{puts_from};
ghost use Rattle.lines.specs.Lines.{decimal, newline};
ghost use Rattle.arena.specs.Calls.{Fair};
ghost use Rattle.arena.specs.Tables.{live_in, state_of as arena_of};
ghost use Rattle.listing.specs.Lent.{before, told};
ghost use Rattle.listing.specs.Listing.{widest, state_of, taken_of, told_of};
ghost use Rattle.edit_listing.specs.Listing.{whole_in};
ghost use Rattle.month_listing.specs.Months.{side_word, refused_line, sided, short_line, second_side, cell_line, cell_lines, widest_cell, cells_taken, refusal_line, closing_of};

use arena::{Arena, Made};
use compare::Compared;
use edit_listing::{DEPTH, RECORD, edit_record};
use ids::BlockId;
use lines::{put_number, put_text};
use listing::{Kind, Ran, Run};
use paths::{IVec3, decode_child_index_path, to_cell};

// The line of a cell has at most so many bytes.
const WIDEST_CELL: usize = 126;

// Which of the two files.
#[derive(Clone, Copy)]
pub enum Side {
    Left,
    Right,
}

// How many cells a block took, and how many bytes their lines have.
#[derive(Clone, Copy)]
pub struct Cells {
    pub cells: usize,
    pub len: usize,
}

// ---- the lines of a side

// Writes the word of a side; answers how many bytes it has.
fn put_side(out: &mut [u8], side: Side) -> usize
    ensures { (out.new ≡ puts_from out.old 0 (side_word side)) × (result ≡ length (side_word side)) × (result ≤ 6) }
{
    match side {
        Side::Left => put_text(out, 0, b"left "),
        Side::Right => put_text(out, 0, b"right "),
    }
}

// Writes the line of a refused record, and none of an accepted one; answers how many bytes it has.
fn put_refused(out: &mut [u8], side: Side, number: u64, no: u32) -> usize
    ensures { (out.new ≡ puts_from out.old 0 (refused_line side number no)) × (result ≡ length (refused_line side number no)) × (result ≤ widest) }
{
    if no == 0 {
        return 0;
    }
    let a = put_side(out, side);
    let b = put_number(out, a, number, b' ');
    let c = put_number(out, a + b, no as u64, b'\n');
    a + b + c
}

impl Kind for Side {
    ghost records = { λ side. sided side };

    fn width(&self) -> usize {
        RECORD
    }

    fn enter(
        &self,
        arena: Arena,
        kids: &mut [u64],
        facts: &mut [u32],
        find: &mut [u16],
        root: BlockId,
        bytes: &[u8],
    ) -> Made {
        edit_record(arena, kids, facts, find, root, bytes)
    }

    fn put(&self, out: &mut [u8], number: u64, no: u32, _root: BlockId) -> usize {
        put_refused(out, *self, number, no)
    }
}

// Edits by the whole records of `bytes`, as far as `out` has room for their lines, and writes the lines of the refused ones at the start of `out`.
pub fn side_records(
    side: Side,
    run: Run,
    kids: &mut [u64],
    facts: &mut [u32],
    find: &mut [u16],
    bytes: &[u8],
    out: &mut [u8],
) -> Ran
    ensures { (result.records ≡ taken_of (whole_in (length bytes.now)) (length out.old))
        × (Fair cube_kids deepest (before run kids.old facts.old find.old).tables
        → told result kids.new facts.new find.new out.new ≡ told_of (sided side) (before run kids.old facts.old find.old) bytes.now out.old result.records) }
{
    let whole = bytes.len() / RECORD;
    listing::list_records(&side, whole, run, kids, facts, find, bytes, out)
}

// Writes the line of a side's cut last record of `cut` bytes, if there is one; answers how many bytes it has.
pub fn side_short(side: Side, cut: usize, out: &mut [u8]) -> usize
    ensures { (out.new ≡ puts_from out.old 0 (short_line side cut)) × (result ≡ length (short_line side cut)) }
{
    if cut == 0 {
        return 0;
    }
    let a = put_side(out, side);
    let b = put_text(out, a, b"short ");
    let c = put_number(out, a + b, cut as u64, b'\n');
    a + b + c
}

// The run with which the second side begins, after the first one: EMPTY, no record so far, the same arena.
pub fn second_side(first: Run) -> Run
    ensures { (k f e : List ℕ) → state_of result k f e ≡ second_side (state_of first k f e) }
{
    Run {
        arena: first.arena,
        root: BlockId::EMPTY,
        count: 0,
    }
}

// ---- the lines of the comparison

// Writes the line of a differing cell; answers how many bytes it has.
fn put_cell(out: &mut [u8], at: usize, code: u32, left: u16, right: u16) -> usize
    requires { at + widest_cell < 2 ^ 64 }
    ensures { (out.new ≡ puts_from out.old at (cell_line code left right)) × (result ≡ length (cell_line code left right)) × (result ≤ widest_cell) }
{
    let position = decode_child_index_path(code).unwrap_or(IVec3 { x: 0, y: 0, z: 0 });
    let cell = to_cell(position, DEPTH);
    let a = at + put_number(out, at, code as u64, b' ');
    let b = a + put_number(out, a, cell.x as u64, b' ');
    let c = b + put_number(out, b, cell.y as u64, b' ');
    let d = c + put_number(out, c, cell.z as u64, b' ');
    let e = d + put_number(out, d, left as u64, b' ');
    let f = e + put_number(out, e, right as u64, b'\n');
    f - at
}

// How many cells of a list a block takes: those from place `from` up to `count`, as far as there is room for their lines.
fn cells_taken(from: usize, count: usize, room: usize) -> usize
    ensures { result ≡ cells_taken (count - from) room }
{
    count.saturating_sub(from).min(room / WIDEST_CELL)
}

// Writes the lines of the cells of a list from place `from` up to `count`, as far as `out` has room, at the start of `out`. Past the end of a part there are zeros.
pub fn cell_lines(
    codes: &[u32],
    lefts: &[u16],
    rights: &[u16],
    from: usize,
    count: usize,
    out: &mut [u8],
) -> Cells
    ensures { (result.cells ≡ cells_taken (count - from) (length out.old))
        × (out.new ≡ puts_from out.old 0 (cell_lines codes.now lefts.now rights.now from result.cells))
        × (result.len ≡ length (cell_lines codes.now lefts.now rights.now from result.cells)) }
{
    let cells = cells_taken(from, count, out.len());
    let mut len: usize = 0;
    for i in 0..cells {
        let at = from + i;
        let code = codes.get(at).copied().unwrap_or(0);
        let left = lefts.get(at).copied().unwrap_or(0);
        let right = rights.get(at).copied().unwrap_or(0);
        len += put_cell(out, len, code, left, right);
    }
    Cells { cells, len }
}

// Writes a word, a number and the end of the line; answers how many bytes that is.
fn put_numbered(out: &mut [u8], at: usize, word: &[u8], n: u64) -> usize
    requires { at + length word.now + 21 < 2 ^ 64 }
    ensures { (out.new ≡ puts_from out.old at (word.now ++ (decimal n ++ (newline ∷ []))))
        × (result ≡ length (word.now ++ (decimal n ++ (newline ∷ [])))) × (result ≤ length word.now + 21) }
{
    let a = put_text(out, at, word);
    let b = put_number(out, at + a, n, b'\n');
    a + b
}

// Writes the line of the comparison's refusal, if there is one; answers how many bytes it has.
fn put_refusal(out: &mut [u8], no: u32) -> usize
    ensures { (out.new ≡ puts_from out.old 0 (refusal_line no)) × (result ≡ length (refusal_line no)) × (result ≤ 29) }
{
    if no == 0 {
        return 0;
    }
    put_numbered(out, 0, b"refused ", no as u64)
}

// Writes the last lines: the refusal of the comparison if there is one, how many cells differ, how many pairs were opened, and how many nodes live; answers how
// many bytes they have.
pub fn closing(compared: Compared, run: Run, out: &mut [u8]) -> usize
    ensures { (out.new ≡ puts_from out.old 0 (closing_of compared.no compared.count compared.opened (live_in (arena_of run.arena))))
        × (result ≡ length (closing_of compared.no compared.count compared.opened (live_in (arena_of run.arena)))) }
{
    let a = put_refusal(out, compared.no);
    let b = a + put_numbered(out, a, b"cells ", compared.count as u64);
    let c = b + put_numbered(out, b, b"opened ", compared.opened as u64);
    c + put_numbered(out, c, b"live ", arena::live(run.arena))
}
