// Readings in metres: one record of 40 bytes taken apart, and the cells that it asks for. What the calls answer: specs/Record.antt.
//
// A record is its kind (u32), its value (u16), two zero bytes, and four f64: x, y, z and the second x; all low byte first. An unused number is all zero bits.
#![tactic(auto)]

ghost use Rattle.std.specs.Prelude.{◌≡◌, Ok, false, ◌+◌, ◌≤◌, length, pos, T};
ghost use Rattle.std.specs.Float.{binary64, fin};
ghost use Rattle.std.specs.Float.Ieee.{to_bits};
ghost use Rattle.basics.specs.Limits.{finest_edge};
ghost use Rattle.metres.specs.Bits.{finite, negative, units, placed, cell_of, below_bits};
ghost use Rattle.basics.specs.Bytes.{word16, word32, word64};
ghost use Rattle.metres.specs.Record.{all_finite, wrong, point_at, said, reading_of, struct_at, zero64, struct_of, aim_of};
ghost use Rattle.metres.specs.Models.{code, Known, judged, cells_of};

use basics::{DEEPEST, FINEST_EDGE, Refusal};
use std::num::f64_from_bits_with_nan;

// A record has so many bytes.
pub const RECORD_BYTES: usize = 40;

// A point in metres.
#[derive(Clone, Copy)]
pub struct Metres {
    pub x: f64,
    pub y: f64,
    pub z: f64,
}

// What a record says: a point with a value, a bar from a point to a second x with a value, or a pause.
#[derive(Clone, Copy)]
pub enum Reading {
    Point(Metres, u16),
    Bar(Metres, f64, u16),
    Pause,
}

// A reading as numbers: the refusal, or 0 and what the record says, with zeros for what it has not.
// Kept: C reads the number beside the rest.
#[repr(C)]
#[derive(Clone, Copy)]
pub struct ReadingFields {
    pub no: u32,
    pub kind: u32,
    pub value: u16,
    pub x: f64,
    pub y: f64,
    pub z: f64,
    pub second: f64,
}

// The cells from the first x to the last at y and z, and the value that they get.
#[derive(Clone, Copy)]
pub struct Cells {
    pub first: u16,
    pub last: u16,
    pub y: u16,
    pub z: u16,
    pub value: u16,
}

// The kind of a record.
#[derive(Clone, Copy)]
enum Kind {
    Pause,
    Shot,
    Bar,
}

// The kind of a number; refusal 13 of one that no kind has.
impl TryFrom<u32> for Kind {
    type Error = Refusal;

    ghost try_from_gives = { Known };

    fn try_from(number: u32) -> Result<Kind, Refusal> {
        match number {
            0 => Ok(Kind::Pause),
            1 => Ok(Kind::Shot),
            2 => Ok(Kind::Bar),
            _ => Err(Refusal::Record),
        }
    }
}

// The words of a record, its numbers by their bits.
#[derive(Clone, Copy)]
struct Words {
    kind: u32,
    value: u16,
    spare: u16,
    x: u64,
    y: u64,
    z: u64,
    second: u64,
}

// ---- an f64 by its bits

// Whether these are the bits of neither a NaN nor an infinity.
fn is_finite(bits: u64) -> bool
    ensures { result ≡ finite bits }
{
    bits % 0x8000_0000_0000_0000 / 0x10_0000_0000_0000 != 2047
}

// Whether the number with the bits w is below that with the bits x. A NaN is neither below nor above anything.
fn below(w: u64, x: u64) -> bool
    ensures { result ≡ below_bits w x }
{
    f64_from_bits_with_nan(w) < f64_from_bits_with_nan(x)
}

// ---- cells

// 2^k.
fn power(k: u32) -> f64
    requires { k ≤ finest_edge }
    ensures { result ≡ fin false 1 (pos k) }
{
    f64::from_bits((1023 + (k as u64)) * 0x10_0000_0000_0000)
}

// The whole part of the number with these bits, rounded down, if it is from 0 to 2^d - 1.
fn whole(bits: u64, d: u32) -> Option<u16>
    requires { d ≤ 10 }
    ensures { result ≡ placed (negative bits) (units bits) d }
{
    // Below zero; then minus zero.
    if 0x8000_0000_0000_0000 < bits {
        return None;
    }
    if 0x8000_0000_0000_0000 <= bits {
        return Some(0);
    }
    let e = bits / 0x10_0000_0000_0000;
    if e < 1023 {
        return Some(0);
    }
    if 1023 + (d as u64) <= e {
        return None;
    }
    Some(((0x10_0000_0000_0000 + bits % 0x10_0000_0000_0000) >> (1075 - e)) as u16)
}

// The cell of the coordinate x, with an edge of 2^-k metres, in a cube of side 2^d. The product is exact, or so large that it is outside.
fn cell_of(x: f64, k: u32, d: u32) -> Option<u16>
    requires k_le_finest_edge { k ≤ finest_edge }
    requires d_bound { d ≤ 10 }
    ensures { result ≡ cell_of (to_bits binary64 x) k d }
{
    if x.is_nan() {
        return None;
    }
    whole((x * power(k)).to_bits(), d)
}

// The cells of a bar from a point to a second x, or of a shot, where that is its first; none where a coordinate has none.
fn cells_of(p: Metres, second: f64, value: u16, k: u32, d: u32) -> Option<Cells>
    requires k_le_finest_edge { k ≤ finest_edge }
    requires d_bound { d ≤ 10 }
    ensures { result ≡ cells_of p second value k d }
{
    Some(Cells {
        first: cell_of(p.x, k, d)?,
        last: cell_of(second, k, d)?,
        y: cell_of(p.y, k, d)?,
        z: cell_of(p.z, k, d)?,
        value,
    })
}

// ---- the words of a record, low byte first

fn read16(bytes: &[u8], at: usize) -> u16
    requires { at + 2 ≤ length bytes.now }
    ensures { result ≡ word16 bytes.now at }
{
    u16::from_le_bytes([bytes[at], bytes[at + 1]])
}

fn read32(bytes: &[u8], at: usize) -> u32
    requires { at + 4 ≤ length bytes.now }
    ensures { result ≡ word32 bytes.now at }
{
    u32::from_le_bytes([bytes[at], bytes[at + 1], bytes[at + 2], bytes[at + 3]])
}

fn read64(bytes: &[u8], at: usize) -> u64
    requires { at + 8 ≤ length bytes.now }
    ensures { result ≡ word64 bytes.now at }
{
    u64::from_le_bytes([
        bytes[at],
        bytes[at + 1],
        bytes[at + 2],
        bytes[at + 3],
        bytes[at + 4],
        bytes[at + 5],
        bytes[at + 6],
        bytes[at + 7],
    ])
}

// ---- what they say

// The point whose coordinates have these bits.
fn point_of(x: u64, y: u64, z: u64) -> Metres
    requires { T (finite x) × T (finite y) × T (finite z) }
    ensures { result ≡ point_at x y z }
{
    Metres {
        x: f64::from_bits(x),
        y: f64::from_bits(y),
        z: f64::from_bits(z),
    }
}

impl Words {
    // Whether the words are wrong by the kind: a pause that is not zero throughout, a shot with a second x, a bar whose second x is below its first.
    fn is_wrong(&self, kind: Kind) -> bool
        ensures { result ≡ wrong (code kind) self.now.value self.now.x self.now.y self.now.z self.now.second }
    {
        match kind {
            Kind::Pause => {
                !(self.value == 0 && self.x == 0 && self.y == 0 && self.z == 0 && self.second == 0)
            }
            Kind::Shot => self.second != 0,
            Kind::Bar => below(self.second, self.x),
        }
    }

    // Whether all four numbers are finite.
    fn all_finite(&self) -> bool
        ensures { result ≡ all_finite self.now.x self.now.y self.now.z self.now.second }
    {
        is_finite(self.x) && is_finite(self.y) && is_finite(self.z) && is_finite(self.second)
    }

    // What words of this kind say that are refused by neither 13 nor 14.
    fn say(&self, kind: Kind) -> Reading
        requires { T (all_finite self.now.x self.now.y self.now.z self.now.second) }
        ensures { result ≡ said (code kind) self.now.value self.now.x self.now.y self.now.z self.now.second }
    {
        let point = point_of(self.x, self.y, self.z);
        match kind {
            Kind::Pause => Reading::Pause,
            Kind::Shot => Reading::Point(point, self.value),
            Kind::Bar => Reading::Bar(point, f64::from_bits(self.second), self.value),
        }
    }

    // What the words say: refusal 13, then 14.
    fn judge(&self) -> Result<Reading, Refusal>
        ensures { result ≡ judged self.now.kind self.now.value self.now.spare self.now.x self.now.y self.now.z self.now.second }
    {
        let kind = Kind::try_from(self.kind)?;
        if self.spare != 0 || self.is_wrong(kind) {
            return Err(Refusal::Record);
        }
        if !self.all_finite() {
            return Err(Refusal::NotFinite);
        }
        Ok(self.say(kind))
    }
}

// What a record says, or its refusal: 13, then 14.
pub fn parse(bytes: &[u8]) -> Result<Reading, Refusal>
    ensures { result ≡ reading_of bytes.now }
{
    if bytes.len() != RECORD_BYTES {
        return Err(Refusal::Record);
    }
    let words = Words {
        kind: read32(bytes, 0),
        value: read16(bytes, 4),
        spare: read16(bytes, 6),
        x: read64(bytes, 8),
        y: read64(bytes, 16),
        z: read64(bytes, 24),
        second: read64(bytes, 32),
    };
    words.judge()
}

// A pause, or a refusal, as numbers.
fn no_reading(number: u32) -> ReadingFields
    ensures { result ≡ struct_at number 0 0 zero64 zero64 zero64 zero64 }
{
    ReadingFields {
        no: number,
        kind: 0,
        value: 0,
        x: 0.0,
        y: 0.0,
        z: 0.0,
        second: 0.0,
    }
}

// What a record says, as numbers.
impl From<Reading> for ReadingFields {
    ghost from_gives = { λ reading fields. fields ≡ struct_of (Ok reading) };

    fn from(reading: Reading) -> ReadingFields {
        match reading {
            Reading::Point(p, value) => ReadingFields {
                no: 0,
                kind: 1,
                value,
                x: p.x,
                y: p.y,
                z: p.z,
                second: 0.0,
            },
            Reading::Bar(p, second, value) => ReadingFields {
                no: 0,
                kind: 2,
                value,
                x: p.x,
                y: p.y,
                z: p.z,
                second,
            },
            Reading::Pause => no_reading(0),
        }
    }
}

// The same, or the number of its refusal.
impl From<Result<Reading, Refusal>> for ReadingFields {
    ghost from_gives = { λ reading fields. fields ≡ struct_of reading };

    #[tactic(auto, unfolding(crate::specs::Record::struct_of))]
    fn from(reading: Result<Reading, Refusal>) -> ReadingFields {
        match reading {
            Ok(reading) => ReadingFields::from(reading),
            Err(refusal) => no_reading(u32::from(refusal)),
        }
    }
}

// What a record asks for in a cube of side 2^depth, with an edge of 2^-k metres: nothing (a pause), or cells. Refusal 2, then 13 and 14, then 3 of every cell.
pub fn aim_of(bytes: &[u8], k: u32, depth: u32) -> Result<Option<Cells>, Refusal>
    ensures { result ≡ aim_of bytes.now k depth }
{
    if DEEPEST < depth || FINEST_EDGE < k {
        return Err(Refusal::Depth);
    }
    let cells = match parse(bytes)? {
        Reading::Pause => return Ok(None),
        Reading::Point(p, value) => cells_of(p, p.x, value, k, depth),
        Reading::Bar(p, second, value) => cells_of(p, second, value, k, depth),
    };
    match cells {
        Some(cells) => Ok(Some(cells)),
        None => Err(Refusal::Position),
    }
}
