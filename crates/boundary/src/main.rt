// The boundary cases of the arena and the edit, each by the calls themselves: a line says what was asked, the refusal, and the id, value or counts
// that were answered.
//
// Every case begins with a fresh arena of 8 slots, of which 7 can be given out: as many as the path of one cell at depth 6 has nodes. Its tables have
// 944 bytes. Where a line can't be written, the program ends with the error.
#![tactic(auto)]

use arena::{Arena, Counts, Made, Seen};
use ids::BlockId;
use paths::IVec3;
use std::fmt::{self, Display, Formatter, Write};
use std::{io, str};

const SLOTS: usize = 8;

const KIDS: usize = 64;

const FACTS: usize = 88;

const CELLS: usize = 40;

const DEPTH: u32 = 6;

// ---- lines

// An id by its text.
#[derive(Clone, Copy)]
struct Text(BlockId);

impl Display for Text {
    fn fmt<W: Write>(&self, f: &mut Formatter<W>) -> Result<(), fmt::Error> {
        let text = ids_text::text(self.0);
        let bytes = text.bytes.get(..text.len).unwrap_or(&[]);
        f.write_str(str::from_utf8(bytes).unwrap_or(""))
    }
}

fn say_made(rt: &impl Print, asked: &str, made: Made) -> io::Result<()> {
    println!(rt; "{asked}: {} {}", made.no, Text(made.id))
}

fn say_packed(rt: &impl Print, asked: &str, generation: u16) -> io::Result<()> {
    println!(rt;
        "{asked}: {} {}",
        BlockId::packing_no(generation),
        Text(BlockId::new_leaf(1, generation))
    )
}

fn say_answer(rt: &impl Print, asked: &str, no: u32) -> io::Result<()> {
    println!(rt; "{asked}: {no}")
}

// ---- calls

fn cell(x: i32) -> IVec3 {
    IVec3 { x, y: 0, z: 0 }
}

// An arena and its tables.
#[derive(Drop)]
struct Tables {
    arena: Arena,
    kids: [u64; KIDS],
    facts: [u32; FACTS],
    find: [u16; CELLS],
}

impl Tables {
    fn new() -> Tables {
        Tables {
            arena: Arena {
                capacity: SLOTS,
                slots: 0,
            },
            kids: [0; KIDS],
            facts: [0; FACTS],
            find: [0; CELLS],
        }
    }

    // The arena, to be read.
    fn seen(&self) -> Seen<'_> {
        self.arena.seen(&self.kids, &self.facts, &self.find)
    }

    // Makes it a fresh arena.
    fn clear(&mut self) {
        let answer = arena_hold::fresh(SLOTS, &mut self.kids, &mut self.facts, &mut self.find);
        self.arena.slots = answer.slots;
    }

    fn release(&mut self, id: BlockId) -> u32 {
        let answer = arena_release::release(
            self.arena,
            &mut self.kids,
            &mut self.facts,
            &mut self.find,
            id,
        );
        self.arena.slots = answer.slots;
        answer.no
    }

    fn intern(&mut self, value: u16) -> Made {
        let made = arena_leaf::intern_leaf(
            self.arena,
            &mut self.kids,
            &mut self.facts,
            &mut self.find,
            value,
        );
        self.arena.slots = made.slots;
        made
    }

    // Edits a cell of the x axis at depth 6.
    fn edit(&mut self, root: BlockId, x: i32, value: u16) -> Made {
        let made = edit::set_voxel(
            self.arena,
            &mut self.kids,
            &mut self.facts,
            &mut self.find,
            root,
            DEPTH,
            cell(x),
            value,
        );
        self.arena.slots = made.slots;
        made
    }

    // Holds a node so many times; answers the last refusal.
    fn hold(&mut self, id: BlockId, times: u32) -> u32 {
        let mut no: u32 = 0;
        for _ in 0..times {
            no = arena_hold::hold(self.arena, &self.kids, &mut self.facts, &self.find, id).no;
        }
        no
    }

    // Looks a cell of the x axis up at depth 6.
    fn say_cell(&self, rt: &impl Print, asked: &str, root: BlockId, x: i32) -> io::Result<()> {
        let (no, value) = match read_cell::get_at_depth(self.seen(), root, DEPTH, cell(x)) {
            Ok(value) => (0, value),
            Err(refusal) => (u32::from(refusal), 0),
        };
        println!(rt; "{asked}: {no} {value}")
    }

    fn say_counts(&self, rt: &impl Print, asked: &str, id: BlockId) -> io::Result<()> {
        let (no, Counts { holds, places }) = match arena_hold::counts(self.seen(), id) {
            Ok(counts) => (0, counts),
            Err(refusal) => (
                u32::from(refusal),
                Counts {
                    holds: 0,
                    places: 0,
                },
            ),
        };
        println!(rt; "{asked}: {no} holds {holds} places {places}")
    }
}

// ---- depth 6, cell 63 against 64

fn cells(rt: &impl Print, tables: &mut Tables) -> io::Result<()> {
    tables.clear();
    let made = tables.edit(BlockId::EMPTY, 63, 7);
    say_made(rt, "edit cell 63", made)?;
    tables.say_cell(rt, "lookup cell 63", made.id, 63)?;
    tables.say_cell(rt, "lookup cell 64", made.id, 64)?;
    say_made(rt, "edit cell 64", tables.edit(made.id, 64, 7))
}

// ---- a full arena, on a hit and on a miss

fn full(rt: &impl Print, tables: &mut Tables) -> io::Result<()> {
    tables.clear();
    let made = tables.edit(BlockId::EMPTY, 0, 5);
    say_made(rt, "edit that fills the arena", made)?;
    let hit = tables.edit(made.id, 0, 5);
    say_made(rt, "full, edit to what is there", hit)?;
    say_made(rt, "full, edit to what is not", tables.edit(hit.id, 0, 6))?;
    say_made(rt, "full, leaf that is there", tables.intern(5))?;
    say_made(rt, "full, leaf that is not", tables.intern(6))
}

// ---- generation 0x7FFD against its successor

fn generations(rt: &impl Print, tables: &mut Tables) -> io::Result<()> {
    tables.clear();
    for _ in 0..0x7FFDu32 {
        let leaf = tables.intern(5);
        tables.release(leaf.id);
    }
    let last = tables.intern(5);
    say_made(rt, "leaf after 32765 recyclings", last)?;
    say_answer(rt, "release it", tables.release(last.id))?;
    say_made(rt, "leaf after one more", tables.intern(5))?;
    tables.say_counts(rt, "counts of the id before", last.id)?;
    say_packed(rt, "pack generation 0x7FFD", 0x7FFD)?;
    say_packed(rt, "pack generation 0x7FFE", 0x7FFE)?;
    say_packed(rt, "pack generation 0x7FFF", 0x7FFF)
}

// ---- 1,000,000 holds and one more

fn holds(rt: &impl Print, tables: &mut Tables) -> io::Result<()> {
    tables.clear();
    let leaf = tables.intern(5);
    say_made(rt, "leaf, hold 1", leaf)?;
    say_answer(rt, "hold 1000000", tables.hold(leaf.id, 999999))?;
    tables.say_counts(rt, "counts", leaf.id)?;
    say_answer(rt, "hold 1000001", tables.hold(leaf.id, 1))?;
    say_made(rt, "the leaf again", tables.intern(5))?;
    tables.say_counts(rt, "counts", leaf.id)?;
    say_answer(rt, "release", tables.release(leaf.id))?;
    say_answer(rt, "hold", tables.hold(leaf.id, 1))?;
    tables.say_counts(rt, "counts", leaf.id)
}

fn main(rt: HostRuntime) -> io::Result<()> {
    let mut tables = Tables::new();
    cells(&rt, &mut tables)?;
    full(&rt, &mut tables)?;
    generations(&rt, &mut tables)?;
    holds(&rt, &mut tables)
}
