// Paths, and the text of an id.
ghost use Rattle.std.specs.Prelude.{◌≡◌};
ghost use Rattle.paths.specs.Paths.{path_of, decoded_of, child_index_of};
ghost use Rattle.capi_paths.specs.Cells.{position_at};
ghost use Rattle.ids_text.specs.Text.{id_text_of};

use capi_paths::{Cell, Child, Text};

#[unsafe(no_mangle)]
pub extern "C" fn fenpiling_encode_child_index_path(x: i32, y: i32, z: i32) -> u32
    ensures { result ≡ path_of (position_at x y z) }
{
    capi_paths::fenpiling_encode_child_index_path(x, y, z)
}

#[unsafe(no_mangle)]
pub extern "C" fn fenpiling_decode_child_index_path(code: u32) -> Cell
    ensures { (result.no ≡ (decoded_of code).no) × (position_at result.x result.y result.z ≡ (decoded_of code).position) }
{
    capi_paths::fenpiling_decode_child_index_path(code)
}

#[unsafe(no_mangle)]
pub extern "C" fn fenpiling_child_index2(x: i32, y: i32, z: i32, current: u32, max: u32) -> Child
    ensures { (result.no ≡ (child_index_of (position_at x y z) current max).no) × (result.index ≡ (child_index_of (position_at x y z) current max).index) }
{
    capi_paths::fenpiling_child_index2(x, y, z, current, max)
}

#[unsafe(no_mangle)]
pub extern "C" fn fenpiling_text(raw: u64) -> Text
    ensures { (result.bytes ≡ (id_text_of raw).bytes) × (result.len ≡ (id_text_of raw).len) }
{
    capi_paths::fenpiling_text(raw)
}
