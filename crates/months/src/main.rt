// Compares two files of edit records: the cells in which the models that they make differ.
//
// `months A B` reads 8-byte records (x, y, z and the value, 16 bits each, low byte first) from the file A, and then from the file B. The records of each are
// edits at depth 6, the first one of EMPTY, in one arena of 512 slots; after an accepted edit the old root is released, and both last roots stay held. Writes
// `left N NO` for each refused record N of A, `left short K` for its cut last record of K bytes, and `right ..` for those of B. Then the two roots are compared:
// a line for each cell in which they differ, in rising path code, with the code, x, y, z, the value in A and the value in B; or `refused 15` where more than 1,024
// cells differ. Last come `cells N`, how many differ, `opened N`, how many pairs of nodes were opened, and `live N`, the nodes that live. Without two arguments it
// says how to call it; where a file can't be opened or read, or a line can't be written, or the tables do not fit the slots, it says so; both on standard error,
// and then it writes no `live` line.
#![tactic(auto)]

ghost use Rattle.std.specs.Prelude.{◌≤◌};

use compare::{Compared, compare};
use edit_listing::{DEPTH, RECORD};
use ids::BlockId;
use listing::Run;
use month_listing::{Side, cell_lines, closing, second_side, side_records, side_short};
use std::io::Read;
use std::rt::Env;
use streams::{ARGUMENT, After, CELLS, FACTS, KIDS, SLOTS, is_given, open, read_block, say};

const NAME: &str = "months";

// The cells that the list of differing cells holds: a path code and two values each, 8,192 bytes beside the tables.
const LISTED: usize = 1024;

// Eight records are read at a time, and their lines have at most 84 bytes each; eight cells are written at a time, and theirs have at most 126 bytes each.
const BLOCK: usize = 64;

const LINES: usize = 1008;

// Edits by the records of a file, from a run on, and writes the lines of the refused ones; answers the run at its end, or None where something failed.
fn enter_file(
    rt: &(impl Print + Eprint + Alloc),
    side: Side,
    input: &mut impl Read,
    first: Run,
    kids: &mut [u64],
    facts: &mut [u32],
    find: &mut [u16],
) -> Option<Run> {
    let mut run = first;
    let mut block = [0u8; BLOCK];
    let mut lines = [0u8; LINES];
    // A proved loop has to end, and nothing says that the input does: so the blocks are counted, up to a number that no input uses up.
    for _ in 0..u64::MAX {
        let (read, after) = read_block(rt, NAME, input, RECORD, &mut block);
        let ran = side_records(side, run, kids, facts, find, &block[..read], &mut lines);
        run = ran.run;
        say(rt, NAME, &lines, ran.len)?;
        match after {
            After::More => {}
            After::End => {
                let len = side_short(side, read % RECORD, &mut lines);
                say(rt, NAME, &lines, len)?;
                return Some(run);
            }
            After::Failure => return None,
        }
    }
    None
}

// Writes the lines of the first cells of the list; None where that failed.
fn say_cells(
    rt: &(impl Print + Eprint + Alloc),
    codes: &[u32],
    lefts: &[u16],
    rights: &[u16],
    count: usize,
) -> Option<()> {
    let mut from: usize = 0;
    // Kept: a turn goes on by as many cells as were written, which no `for` counts.
    while from < count {
        let mut lines = [0u8; LINES];
        let block = cell_lines(codes, lefts, rights, from, count, &mut lines);
        say(rt, NAME, &lines, block.len)?;
        from += block.cells;
    }
    Some(())
}

// Compares the two roots and writes what came of it.
fn say_outcome(
    rt: &(impl Print + Eprint + Alloc),
    run: Run,
    kids: &[u64],
    facts: &[u32],
    find: &[u16],
    left: BlockId,
) -> Option<()> {
    let mut codes = [0u32; LISTED];
    let mut lefts = [0u16; LISTED];
    let mut rights = [0u16; LISTED];
    let compared = Compared::from(compare(
        run.arena.seen(kids, facts, find),
        left,
        run.root,
        DEPTH,
        &mut codes,
        &mut lefts,
        &mut rights,
    ));
    say_cells(rt, &codes, &lefts, &rights, compared.count as usize)?;
    let mut lines = [0u8; LINES];
    let len = closing(compared, run, &mut lines);
    say(rt, NAME, &lines, len)
}

// Enters both files and compares them; None where something failed.
fn list(
    rt: &(impl Print + Eprint + Alloc),
    left: &mut impl Read,
    right: &mut impl Read,
) -> Option<()> {
    let mut kids = [0u64; KIDS];
    let mut facts = [0u32; FACTS];
    let mut find = [0u16; CELLS];
    let start = listing::start(SLOTS, &mut kids, &mut facts, &mut find);
    if start.no != 0 {
        let _ = eprintln!(rt; "{NAME}: the tables do not fit");
        return None;
    }
    let first = enter_file(
        rt,
        Side::Left,
        left,
        start.run,
        &mut kids,
        &mut facts,
        &mut find,
    )?;
    let next = second_side(first);
    let end = enter_file(
        rt,
        Side::Right,
        right,
        next,
        &mut kids,
        &mut facts,
        &mut find,
    )?;
    say_outcome(rt, end, &kids, &facts, &find, first.root)
}

fn main(rt: HostRuntime) {
    if !is_given(rt.arg(2, &mut [])) || is_given(rt.arg(3, &mut [])) {
        let _ = eprintln!(rt;
            "usage: months A B, two files of edit records: their differing cells"
        );
        return;
    }
    let mut name = [0u8; ARGUMENT];
    let argument = rt.arg(1, &mut name);
    let Some(mut left) = open(&rt, NAME, argument, &name) else {
        return;
    };
    let argument = rt.arg(2, &mut name);
    let Some(mut right) = open(&rt, NAME, argument, &name) else {
        return;
    };
    list(&rt, &mut left, &mut right);
}
