// Paths: where a cell lies in the octree, as one number of interleaved bits, and as one child number a level.
#![tactic(auto)]

ghost use Rattle.std.specs.Prelude.{◌≡◌, ◌^◌, ◌<◌, ◌≤◌};
ghost use Rattle.basics.specs.Limits.{deepest};
ghost use Rattle.basics.specs.Refusals.{no_of};
ghost use Rattle.paths.specs.Paths.{low10, interleave, path_of, gather as gather_of, decoded, decoded_of, inside, whole as whole_of, coord_of, to_cell, octant as octant_of, child_no, child_index, child_index_of};

use basics::{DEEPEST, Refusal};

const MASK_10_BITS: u32 = 0x3FF;

const MASK_1: u32 = 0x30000FF;

const MASK_2: u32 = 0x300F00F;

const MASK_3: u32 = 0x30C30C3;

const MASK_4: u32 = 0x9249249;

// The place of a cell.
#[repr(C)]
#[derive(Clone, Copy, Debug, PartialEq, Eq)]
pub struct IVec3 {
    pub x: i32,
    pub y: i32,
    pub z: i32,
}

// A cell of the cube of a depth, its coordinates as numbers.
#[derive(Clone, Copy, Debug, PartialEq, Eq)]
pub struct Cell {
    pub x: u32,
    pub y: u32,
    pub z: u32,
    pub depth: u32,
}

// The low 10 bits of a coordinate. A negative one is -1 - n: its bits are those of n, each turned over.
#[tactic(auto, using(crate::proofs::Coords::low_cast))]
fn low_bits(x: i32) -> u32
    ensures { result ≡ low10 x }
{
    x.cast_unsigned() & MASK_10_BITS
}

// The ten bits of a number, three apart: bit n at 3n.
#[tactic(auto, using(crate::proofs::Masks::masks_spread))]
fn spread(x: u32) -> u32
    requires { x < 2 ^ 10 }
    ensures { result ≡ interleave 10 x 0 0 }
{
    let a = (x | (x << 16)) & MASK_1;
    let b = (a | (a << 8)) & MASK_2;
    let c = (b | (b << 4)) & MASK_3;
    (c | (c << 2)) & MASK_4
}

// The path of a cell: of the low 10 bits per axis, bit n of x at 3n, of y at 3n+1, of z at 3n+2. Never refuses.
#[tactic(auto, using(crate::proofs::Calls::ten, crate::proofs::Calls::encoded))]
pub fn encode_child_index_path(position: IVec3) -> u32
    ensures { result ≡ path_of position }
{
    let x = spread(low_bits(position.x));
    let y = spread(low_bits(position.y));
    let z = spread(low_bits(position.z));
    x | (y << 1) | (z << 2)
}

// The number whose bit n is bit 3n + axis of the code, for every n below 10.
#[tactic(auto, using(crate::proofs::Calls::gather_none, crate::proofs::Calls::gather_fits, crate::proofs::Calls::gather_one))]
fn gather(code: u32, axis: u32) -> u32
    requires { axis < 3 }
    ensures { result ≡ gather_of 10 axis code }
{
    let mut sum = 0;
    for n in 0..10 {
        sum += ((code >> (3 * n + axis)) % 2) << n;
    }
    sum
}

// The cell of a path: the inverse, for codes below 2^30. Any other code is refusal 3.
#[tactic(auto, using(crate::proofs::Calls::too_long, crate::proofs::Calls::gathered_fits, crate::proofs::Calls::decoded))]
pub fn decode_child_index_path(code: u32) -> Result<IVec3, Refusal>
    ensures { decoded result ≡ decoded_of code }
{
    if code >= 0x4000_0000 {
        return Err(Refusal::Position);
    }
    Ok(IVec3 {
        x: gather(code, 0) as i32,
        y: gather(code, 1) as i32,
        z: gather(code, 2) as i32,
    })
}

// A coordinate as a number; one below 0 is 0.
#[tactic(auto, using(crate::proofs::Coords::whole_cast))]
fn whole(x: i32) -> u32
    ensures { result ≡ whole_of x }
{
    u32::try_from(x).unwrap_or(0)
}

// A coordinate as a number; one below 0 becomes 2^32 - 1, which no cube has.
#[tactic(auto, using(crate::proofs::Coords::coord_cast))]
fn coord(x: i32) -> u32
    ensures { result ≡ coord_of x }
{
    u32::try_from(x).unwrap_or(u32::MAX)
}

// The cell at a position of the cube of the depth; a position outside it becomes a cell outside it.
#[tactic(auto, using(crate::proofs::Coords::cell_is))]
pub fn to_cell(position: IVec3, depth: u32) -> Cell
    ensures { result ≡ to_cell position depth }
{
    Cell {
        x: coord(position.x),
        y: coord(position.y),
        z: coord(position.z),
        depth,
    }
}

// A coordinate is neither below 0 nor at least 2^d.
#[tactic(auto, using(crate::proofs::Coords::inside_cast, crate::proofs::Coords::inside_not))]
fn is_inside(d: u32, x: i32) -> bool
    requires { d ≤ deepest }
    ensures { result ≡ inside d x }
{
    0 <= x && x.cast_unsigned() < 1 << d
}

// Of three numbers, bit b of x, plus twice that of y, plus four times that of z. From 32 on no bit is 1.
#[tactic(auto, using(crate::proofs::Calls::octant_sum, crate::proofs::Calls::octant_past))]
pub fn octant(b: u32, x: u32, y: u32, z: u32) -> usize
    ensures { (result ≡ octant_of b x y z) × (result < 8) }
{
    if b < 32 {
        return ((x >> b) % 2 + 2 * ((y >> b) % 2) + 4 * ((z >> b) % 2)) as usize;
    }
    0
}

// The lowest refusal that applies to a child number.
#[tactic(auto, using(crate::proofs::Calls::ladder))]
fn may_ask_child(position: IVec3, current: u32, max: u32) -> Result<(), Refusal>
    ensures { no_of result ≡ child_no position current max }
{
    if max > DEEPEST || current >= max {
        return Err(Refusal::Depth);
    }
    if is_inside(max, position.x) && is_inside(max, position.y) && is_inside(max, position.z) {
        Ok(())
    } else {
        Err(Refusal::Position)
    }
}

// The number of the child in which the cell lies, 0 to 7, at level current of depth max, or the refusal.
#[tactic(auto, using(crate::proofs::Calls::refused, crate::proofs::Calls::above, crate::proofs::Calls::level, crate::proofs::Calls::given))]
pub fn child_index2(position: IVec3, current: u32, max: u32) -> Result<usize, Refusal>
    ensures { child_index result ≡ child_index_of position current max }
{
    may_ask_child(position, current, max)?;
    let bit = max - 1 - current;
    let child = octant(bit, whole(position.x), whole(position.y), whole(position.z));
    Ok(child)
}
