// The listing of records, whatever a record does: the lines that say what came of each, and how the run goes on from its answer.
// What the calls answer and leave: specs/Listing.antt. Records that edit are in the crate edit_listing.
#![tactic(auto)]

ghost use Rattle.std.specs.Prelude.{◌≡◌, ◌+◌, ◌^◌, ◌<◌, ◌≤◌, [], ◌∷◌, ◌++◌, length, take};
ghost use Rattle.basics.specs.Limits.{deepest, cube_kids};
ghost use Rattle.basics.specs.Puts.{puts_from};
ghost use Rattle.ids_text.specs.Text.{text_of};
ghost use Rattle.arena.specs.Calls.{Fair};
ghost use Rattle.arena.specs.Lent.{before as tables_before, made};
ghost use Rattle.arena.specs.Tables.{live_in, state_of};
ghost use Rattle.listing.specs.Lent.{before, after, handed, stepped, lined, told};
ghost use Rattle.lines.specs.Lines.{newline};
ghost use Rattle.listing.specs.Listing.{Records, line_of, widest, record_in, short_of, ending_of, stepped_of, start_of, taken_of, told_of};
ghost use Rattle.listing.specs.Models.{one_of};

use arena::{Arena, Made};
use ids::BlockId;
use ids_text::IdText;
use lines::{put_number, put_text};

// A line has at most so many bytes.
const WIDEST: usize = 84;

// What stands between two records: the arena's state, the root, and how many records there were.
#[derive(Clone, Copy)]
pub struct Run {
    pub arena: Arena,
    pub root: BlockId,
    pub count: u64,
}

// What a block came to: how many records it took and how many bytes their lines have.
#[derive(Clone, Copy)]
pub struct Ran {
    pub run: Run,
    pub records: usize,
    pub len: usize,
}

// What the start came to, and what a record did: the run, and the refusal, 0 if there is none.
// Kept: `start` is a call that users have, and after a refusal, too, the run goes on: the number stands beside it.
#[derive(Clone, Copy)]
pub struct Step {
    pub run: Run,
    pub no: u32,
}

// What a record came to, and how many bytes its line has.
#[derive(Clone, Copy)]
pub struct Lined {
    pub run: Run,
    pub len: usize,
}

// Records of a kind: what a record comes to, and the line that says so.
pub trait Kind {
    // Their definition.
    ghost records: { Self → Records };

    // How many bytes a record has.
    fn width(&self) -> usize
        ensures { result ≡ (records self.now).width };

    // What a record comes to, given its bytes. Fair tables stay fair.
    fn enter(
        &self,
        arena: Arena,
        kids: &mut [u64],
        facts: &mut [u32],
        find: &mut [u16],
        root: BlockId,
        bytes: &[u8],
    ) -> Made
        ensures { Fair cube_kids deepest (tables_before arena kids.old facts.old find.old)
            → Fair cube_kids deepest (made arena result kids.new facts.new find.new).after
            × (made arena result kids.new facts.new find.new ≡ (records self.now).enter (tables_before arena kids.old facts.old find.old) root.0 bytes.now) };

    // Writes the line of a record, of its number, the refusal and the root, at the start of `out`; answers how many bytes it has.
    fn put(&self, out: &mut [u8], number: u64, no: u32, root: BlockId) -> usize
        ensures { (out.new ≡ puts_from out.old 0 ((records self.now).line number no root.0)) × (result ≡ length ((records self.now).line number no root.0)) × (result ≤ widest) };
}

// ---- writing

// The text of an id, in the first bytes of an array.
fn text_of(id: BlockId) -> IdText
    ensures { (result.len ≡ length (text_of id.0)) × (result.len ≤ 41) × (take result.len result.bytes ≡ text_of id.0) × (41 ≡ length result.bytes) }
{
    ids_text::text(id)
}

// Writes the text of an id and the end of the line; answers how many bytes that is.
fn put_id(out: &mut [u8], at: usize, id: BlockId) -> usize
    requires { at + 42 < 2 ^ 64 }
    ensures { (out.new ≡ puts_from out.old at (text_of id.0 ++ (newline ∷ []))) × (result ≡ length (text_of id.0 ++ (newline ∷ []))) × (result ≤ 42) }
{
    let text = text_of(id);
    let a = put_text(out, at, &text.bytes[..text.len]);
    let b = put_text(out, at + a, b"\n");
    a + b
}

// Writes the line of a record; answers how many bytes it has.
pub fn put_line(out: &mut [u8], number: u64, no: u32, root: BlockId) -> usize
    ensures { (out.new ≡ puts_from out.old 0 (line_of number no root.0)) × (result ≡ length (line_of number no root.0)) × (result ≤ widest) }
{
    let a = put_number(out, 0, number, b' ');
    let b = put_number(out, a, no as u64, b' ');
    let c = put_id(out, a + b, root);
    a + b + c
}

// Writes the last lines: a cut last record of `cut` bytes if there is one, and how many nodes live; answers how many bytes they have.
pub fn ending(run: Run, cut: usize, out: &mut [u8]) -> usize
    ensures { (out.new ≡ puts_from out.old 0 (ending_of cut (live_in (state_of run.arena)))) × (result ≡ length (ending_of cut (live_in (state_of run.arena)))) }
{
    let short = put_short(out, cut);
    let word = put_text(out, short, b"live ");
    let live = put_number(out, short + word, arena::live(run.arena), b'\n');
    short + word + live
}

// Writes the line of a cut last record; answers how many bytes it has, none for none.
fn put_short(out: &mut [u8], cut: usize) -> usize
    ensures { (out.new ≡ puts_from out.old 0 (short_of cut)) × (result ≡ length (short_of cut)) × (result ≤ 27) }
{
    if cut == 0 {
        return 0;
    }
    let word = put_text(out, 0, b"short ");
    let number = put_number(out, word, cut as u64, b'\n');
    word + number
}

// ---- from record to record

// A fresh arena over the tables, with nothing in it, before the first record. Where the tables do not fit the capacity it answers 1, and so does every record.
pub fn start(capacity: usize, kids: &mut [u64], facts: &mut [u32], find: &mut [u16]) -> Step
    ensures { stepped result kids.new facts.new find.new ≡ start_of capacity kids.old facts.old find.old }
{
    let fresh = arena_hold::fresh(capacity, kids, facts, find);
    Step {
        run: Run {
            arena: Arena {
                capacity,
                slots: fresh.slots,
            },
            root: BlockId::EMPTY,
            count: 0,
        },
        no: fresh.no,
    }
}

// How many of so many records a block takes: all, as far as there is room for their lines.
#[tactic(auto, using(crate::proofs::Blocks::taken_is))]
pub fn taken(records: usize, room: usize) -> usize
    ensures { result ≡ taken_of records room }
{
    records.min(room / WIDEST)
}

// From a run, after the answer to a record: accepted, its id is the root and the old root is released; refused, the old root stays.
pub fn step_to(run: Run, made: Made, kids: &mut [u64], facts: &mut [u32], find: &mut [u16]) -> Step
    ensures { Fair cube_kids deepest (handed run made kids.old facts.old find.old).after
        → stepped result kids.new facts.new find.new ≡ stepped_of run.root.0 run.count (handed run made kids.old facts.old find.old) }
{
    let count = run.count.wrapping_add(1);
    let arena = Arena {
        capacity: run.arena.capacity,
        slots: made.slots,
    };
    if made.no != 0 {
        return Step {
            run: Run {
                arena,
                root: run.root,
                count,
            },
            no: made.no,
        };
    }
    let released = arena_release::release(arena, kids, facts, find, run.root);
    Step {
        run: Run {
            arena: Arena {
                capacity: run.arena.capacity,
                slots: released.slots,
            },
            root: made.id,
            count,
        },
        no: 0,
    }
}

// Record i of records of so many bytes: as many of them as are left.
#[tactic(auto, using(crate::proofs::Blocks::record_is, crate::proofs::Blocks::record_part))]
pub fn record_in(bytes: &[u8], width: usize, i: usize) -> &[u8]
    ensures { result.now ≡ record_in width bytes.now i }
{
    let from = width.saturating_mul(i).min(bytes.len());
    let rest = &bytes[from..];
    &rest[..width.min(rest.len())]
}

// One record, its line at the start of `out`.
fn one<K: Kind>(
    kind: &K,
    run: Run,
    kids: &mut [u64],
    facts: &mut [u32],
    find: &mut [u16],
    bytes: &[u8],
    out: &mut [u8],
) -> Lined
    ensures { (result.len ≤ widest)
        × (Fair cube_kids deepest (before run kids.old facts.old find.old).tables
        → Fair cube_kids deepest (after result.run kids.new facts.new find.new).tables
        × (lined result kids.new facts.new find.new out.new ≡ one_of (K.records kind.now) (before run kids.old facts.old find.old) bytes.now out.old)) }
{
    let made = kind.enter(run.arena, kids, facts, find, run.root, bytes);
    let step = step_to(run, made, kids, facts, find);
    let len = kind.put(out, step.run.count, step.no, step.run.root);
    Lined { run: step.run, len }
}

// Enters `count` records of `bytes`, as far as `out` has room for their lines, and writes the lines at the start of `out`.
pub fn list_records<K: Kind>(
    kind: &K,
    count: usize,
    run: Run,
    kids: &mut [u64],
    facts: &mut [u32],
    find: &mut [u16],
    bytes: &[u8],
    out: &mut [u8],
) -> Ran
    ensures { (result.records ≡ taken_of count (length out.old))
        × (Fair cube_kids deepest (before run kids.old facts.old find.old).tables
        → told result kids.new facts.new find.new out.new ≡ told_of (K.records kind.now) (before run kids.old facts.old find.old) bytes.now out.old result.records) }
{
    let records = taken(count, out.len());
    let mut run = run;
    let mut len: usize = 0;
    for i in 0..records {
        let record = record_in(bytes, kind.width(), i);
        let lined = one(kind, run, kids, facts, find, record, &mut out[len..]);
        run = lined.run;
        len += lined.len;
    }
    Ran { run, records, len }
}
