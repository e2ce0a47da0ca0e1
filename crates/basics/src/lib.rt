// Definitions and laws that speak of no id, table or tree: the limits, a choice by a test, ladders of tests, the bits of a number, sums and averages, the characters of a text.
// In code only the limits and the refusals: see specs/ and proofs/ for the rest.
#![tactic(auto)]

ghost use Rattle.std.specs.Prelude.{◌≡◌};
ghost use Rattle.basics.specs.Refusals.{number};

// The deepest tree: no depth, and no node's height, is above it.
pub const DEEPEST: u32 = 6;

// The same of a height, which is a word of a slot.
pub const TALLEST: u32 = 6;

// The deepest cube that is expanded.
pub const DEEPEST_CUBE: u32 = 6;

// The finest edge of a cell: 2^-k metres, where k is not above it.
pub const FINEST_EDGE: u32 = 6;

// The children of a node in a cube.
pub const CUBE_KIDS: usize = 8;

// The words of a slot in the tables `kids` and `facts`, and its cells in the table `find`.
pub const KID_WORDS: usize = 8;

pub const FACT_WORDS: usize = 11;

// Of a slot's words in `facts` so many stand in its row: all but the hash.
pub const ROW_WORDS: usize = 10;

pub const SLOT_CELLS: usize = 5;

// Of a slot's cells in `find` so many are homes, cells where a search can begin.
pub const SLOT_HOMES: usize = 4;

// The children of a node: as many words as its slot has in `kids`.
pub type Kids = [u64; KID_WORDS];

// The children of a leaf.
pub const NO_KIDS: Kids = [0, 0, 0, 0, 0, 0, 0, 0];

// The capacity of an arena.
pub const LEAST_SLOTS: usize = 2;

pub const MOST_SLOTS: usize = 65536;

// Values are 0 to this.
pub const LARGEST_VALUE: u32 = 65535;

// Callers' holds on one node.
pub const MOST_HOLDS: u32 = 1000000;

// The generation after which a slot's next is 0.
pub const LAST_GENERATION: u16 = 0x7FFD;

// Why a call refuses: the README and docs/RULES.md say each in full.
#[derive(Clone, Copy, Debug, PartialEq, Eq)]
pub enum Refusal {
    Size,
    Depth,
    Position,
    NotLive,
    FewHolds,
    ZeroLeaf,
    AllEmpty,
    Tall,
    Cube,
    ManyHolds,
    Full,
    Generation,
    Record,
    NotFinite,
    ShortList,
}

// The number of a refusal, by which C and the listings know it.
impl From<Refusal> for u32 {
    ghost from_gives = { λ refusal no. no ≡ number refusal };

    fn from(refusal: Refusal) -> u32 {
        match refusal {
            Refusal::Size => 1,
            Refusal::Depth => 2,
            Refusal::Position => 3,
            Refusal::NotLive => 4,
            Refusal::FewHolds => 5,
            Refusal::ZeroLeaf => 6,
            Refusal::AllEmpty => 7,
            Refusal::Tall => 8,
            Refusal::Cube => 9,
            Refusal::ManyHolds => 10,
            Refusal::Full => 11,
            Refusal::Generation => 12,
            Refusal::Record => 13,
            Refusal::NotFinite => 14,
            Refusal::ShortList => 15,
        }
    }
}
