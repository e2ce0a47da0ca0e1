// Readings in metres for C and Rust: a record taken apart, and a reading entered. Each function calls the one it stands for in the crates `metres` and
// `readings`, and its contract cites the same definition. A slice goes as its address and its length, an id as its raw number.
#![tactic(auto)]

ghost use Rattle.std.specs.Prelude.{◌≡◌};
ghost use Rattle.basics.specs.Limits.{deepest, cube_kids};
ghost use Rattle.metres.specs.Record.{struct_of, reading_of};
ghost use Rattle.arena.specs.Calls.{Fair};
ghost use Rattle.arena.specs.Lent.{before, made};
ghost use Rattle.readings.specs.Enter.{enter_of};

use arena::{Arena, Made};
use ids::BlockId;
use metres::ReadingFields;

pub fn fenpiling_parse_reading(bytes: &[u8]) -> ReadingFields
    ensures { result ≡ struct_of (reading_of bytes.now) }
{
    ReadingFields::from(metres::parse(bytes))
}

pub fn fenpiling_enter_reading(
    arena: Arena,
    kids: &mut [u64],
    facts: &mut [u32],
    find: &mut [u16],
    root: u64,
    depth: u32,
    k: u32,
    bytes: &[u8],
) -> Made
    ensures { Fair cube_kids deepest (before arena kids.old facts.old find.old)
        → made arena result kids.new facts.new find.new ≡ enter_of (before arena kids.old facts.old find.old) root depth k bytes.now }
{
    readings::enter_reading(arena, kids, facts, find, BlockId(root), depth, k, bytes)
}
