// Edits a model by records and lists what came of each.
//
// Reads 8-byte records (x, y, z and the value, 16 bits each, low byte first) from the file that its argument names, or from standard input where there
// is none. Each record is an edit at depth 6, the first one of EMPTY, in an arena of 512 slots; after an accepted edit the old root is released. Writes
// a line for each record: its number, the refusal, the root. Then `short K` for a cut last record of K bytes, and last `live N`, the nodes that live.
// Where the file can't be opened or read, or a line can't be written, or the tables do not fit the slots, it says so on standard error and writes no
// `live` line.
#![tactic(auto)]

use edit_listing::{RECORD, edit_records};
use std::io::Read;
use std::rt::Env;
use streams::{ARGUMENT, After, CELLS, FACTS, KIDS, SLOTS, is_given, open, read_block, say};

const NAME: &str = "edits";

// Eight records are read at a time, and their lines have at most 84 bytes each: with the tables that is still within 64 KiB.
const BLOCK: usize = 64;

const LINES: usize = 672;

// Edits by the records of the input; None where something failed.
fn list(rt: &(impl Print + Eprint + Alloc), input: &mut impl Read) -> Option<()> {
    let mut kids = [0u64; KIDS];
    let mut facts = [0u32; FACTS];
    let mut find = [0u16; CELLS];
    let start = listing::start(SLOTS, &mut kids, &mut facts, &mut find);
    if start.no != 0 {
        let _ = eprintln!(rt; "{NAME}: the tables do not fit");
        return None;
    }
    let mut run = start.run;
    let mut block = [0u8; BLOCK];
    let mut lines = [0u8; LINES];
    // A proved loop has to end, and nothing says that the input does: so the blocks are counted, up to a number that no input uses up.
    for _ in 0..u64::MAX {
        let (read, after) = read_block(rt, NAME, input, RECORD, &mut block);
        let ran = edit_records(
            run,
            &mut kids,
            &mut facts,
            &mut find,
            &block[..read],
            &mut lines,
        );
        run = ran.run;
        say(rt, NAME, &lines, ran.len)?;
        match after {
            After::More => {}
            After::End => {
                let len = listing::ending(run, read % RECORD, &mut lines);
                return say(rt, NAME, &lines, len);
            }
            After::Failure => return None,
        }
    }
    None
}

fn main(rt: HostRuntime) {
    if !is_given(rt.arg(1, &mut [])) {
        list(&rt, &mut rt.stdin());
        return;
    }
    if is_given(rt.arg(2, &mut [])) {
        let _ = eprintln!(rt; "{NAME}: one file at most");
        return;
    }
    let mut name = [0u8; ARGUMENT];
    let argument = rt.arg(1, &mut name);
    if let Some(mut file) = open(&rt, NAME, argument, &name) {
        list(&rt, &mut file);
    }
}
