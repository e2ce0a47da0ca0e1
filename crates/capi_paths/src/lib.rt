// Paths, and the text of an id, for C and Rust: each function calls the one of its name in the crates `paths` and `ids_text`, and its contract cites
// the same definition. A refusal is a number beside the answer: 0 where the call is accepted.
#![tactic(auto)]

ghost use Rattle.std.specs.Prelude.{◌≡◌};
ghost use Rattle.paths.specs.Paths.{path_of, decoded_of, child_index_of};
ghost use Rattle.capi_paths.specs.Cells.{position_at};
ghost use Rattle.ids_text.specs.Text.{id_text_of};

use ids::BlockId;
use ids_text::IdText;
use paths::IVec3;

// The text of an id; the bytes from `len` on are 0.
// Kept: C has the length beside the bytes.
#[repr(C)]
#[derive(Clone, Copy, Debug, PartialEq, Eq)]
pub struct Text {
    pub bytes: [u8; 41],
    pub len: usize,
}

// The cell of a path, or 0, 0, 0 and the number of the refusal.
// Kept: C has the number beside the cell.
#[repr(C)]
#[derive(Clone, Copy, Debug, PartialEq, Eq)]
pub struct Cell {
    pub no: u32,
    pub x: i32,
    pub y: i32,
    pub z: i32,
}

// The number of a child, 0 to 7, or 0 and the number of the refusal.
// Kept: C has the number of the refusal beside that of the child.
#[repr(C)]
#[derive(Clone, Copy, Debug, PartialEq, Eq)]
pub struct Child {
    pub no: u32,
    pub index: usize,
}

pub fn fenpiling_encode_child_index_path(x: i32, y: i32, z: i32) -> u32
    ensures { result ≡ path_of (position_at x y z) }
{
    paths::encode_child_index_path(IVec3 { x, y, z })
}

pub fn fenpiling_decode_child_index_path(code: u32) -> Cell
    ensures { (result.no ≡ (decoded_of code).no) × (position_at result.x result.y result.z ≡ (decoded_of code).position) }
{
    match paths::decode_child_index_path(code) {
        Ok(IVec3 { x, y, z }) => Cell { no: 0, x, y, z },
        Err(refusal) => Cell {
            no: u32::from(refusal),
            x: 0,
            y: 0,
            z: 0,
        },
    }
}

pub fn fenpiling_child_index2(x: i32, y: i32, z: i32, current: u32, max: u32) -> Child
    ensures { (result.no ≡ (child_index_of (position_at x y z) current max).no) × (result.index ≡ (child_index_of (position_at x y z) current max).index) }
{
    let (no, index) = match paths::child_index2(IVec3 { x, y, z }, current, max) {
        Ok(index) => (0, index),
        Err(refusal) => (u32::from(refusal), 0),
    };
    Child { no, index }
}

pub fn fenpiling_text(raw: u64) -> Text
    ensures { (result.bytes ≡ (id_text_of raw).bytes) × (result.len ≡ (id_text_of raw).len) }
{
    let IdText { bytes, len } = ids_text::text(BlockId(raw));
    Text { bytes, len }
}
