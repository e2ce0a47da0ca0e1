// Enters readings in metres and lists what came of each.
//
// `survey K [FILE]` reads 40-byte records (docs/RULES.md) from the file, or from standard input where there is none. Each record is entered at depth 6 with
// an edge of 2^-K metres, the first one below EMPTY, in an arena of 512 slots; after an accepted record the old root is released. Writes a line for each
// record: its number, the refusal, the root; a cut last record has its line too. Last comes `live N`, the nodes that live. K is a number in digits; above 6
// every record is refused with 2. Where K is missing or no number, or there are more arguments, it says how to call it; where the file can't be opened or
// read, or a line can't be written, or the tables do not fit the slots, it says so; both on standard error, and then it writes no `live` line.
#![tactic(auto)]

ghost use Rattle.std.specs.Prelude.{◌≡◌};
ghost use Rattle.survey.specs.Digits.{edge_of};

use basics::FINEST_EDGE;
use metres::RECORD_BYTES;
use reading_listing::enter_records;
use std::io::Read;
use std::rt::Env;
use streams::{ARGUMENT, After, CELLS, FACTS, KIDS, SLOTS, is_given, open, read_block, say};

const NAME: &str = "survey";

// Eight records are read at a time, and their lines have at most 84 bytes each: with the tables that is still within 64 KiB.
const BLOCK: usize = 320;

const LINES: usize = 672;

// Stands for every k that is too large.
const TOO_FINE: u32 = FINEST_EDGE + 1;

// Enters the records of the input; None where something failed.
fn list(rt: &(impl Print + Eprint + Alloc), input: &mut impl Read, k: u32) -> Option<()> {
    let mut kids = [0u64; KIDS];
    let mut facts = [0u32; FACTS];
    let mut find = [0u16; CELLS];
    let start = listing::start(SLOTS, &mut kids, &mut facts, &mut find);
    if start.no != 0 {
        let _ = eprintln!(rt; "{NAME}: the tables do not fit");
        return None;
    }
    let mut run = start.run;
    let mut block = [0u8; BLOCK];
    let mut lines = [0u8; LINES];
    // A proved loop has to end, and nothing says that the input does: so the blocks are counted, up to a number that no input uses up.
    for _ in 0..u64::MAX {
        let (read, after) = read_block(rt, NAME, input, RECORD_BYTES, &mut block);
        let ran = enter_records(
            run,
            &mut kids,
            &mut facts,
            &mut find,
            k,
            &block[..read],
            &mut lines,
        );
        run = ran.run;
        say(rt, NAME, &lines, ran.len)?;
        match after {
            After::More => {}
            After::End => {
                let len = listing::ending(run, 0, &mut lines);
                return say(rt, NAME, &lines, len);
            }
            After::Failure => return None,
        }
    }
    None
}

// The k that a text says in digits, TOO_FINE for every one above 6; none, if it has another byte or is empty.
fn edge_of(text: &[u8]) -> Option<u32>
    ensures { result ≡ edge_of text.now }
{
    if text.is_empty() {
        return None;
    }
    let mut k: u32 = 0;
    for byte in text {
        if !byte.is_ascii_digit() {
            return None;
        }
        k = (10 * k + u32::from(*byte - b'0')).min(TOO_FINE);
    }
    Some(k)
}

// The k that the first argument says. One longer than 4,096 bytes says none.
fn edge_argument(env: &impl Env) -> Option<u32> {
    let mut text = [0u8; ARGUMENT];
    let length = env.arg(1, &mut text).ok()?;
    edge_of(&text[..length])
}

fn main(rt: HostRuntime) {
    let edge = if is_given(rt.arg(3, &mut [])) {
        None
    } else {
        edge_argument(&rt)
    };
    let Some(k) = edge else {
        let _ = eprintln!(rt; "usage: survey K [FILE], with K in digits: an edge of 2^-K metres");
        return;
    };
    if !is_given(rt.arg(2, &mut [])) {
        list(&rt, &mut rt.stdin(), k);
        return;
    }
    let mut name = [0u8; ARGUMENT];
    let argument = rt.arg(2, &mut name);
    if let Some(mut file) = open(&rt, NAME, argument, &name) {
        list(&rt, &mut file, k);
    }
}
