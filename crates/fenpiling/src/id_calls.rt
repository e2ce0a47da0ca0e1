// Ids.
ghost use Rattle.std.specs.Prelude.{◌≡◌, not, eqb};
ghost use Rattle.ids.specs.Ids.{empty, invalid, index_of, generation_of, types_of, mask_of, has_child, is_leaf, is_branch, packing_no, new_leaf, new_branch};

use capi_ids::Packed;

#[unsafe(no_mangle)]
pub extern "C" fn fenpiling_new_leaf(index: u32, generation: u16) -> Packed
    ensures { (result.no ≡ packing_no generation) × (result.id ≡ new_leaf index generation) }
{
    capi_ids::fenpiling_new_leaf(index, generation)
}

#[unsafe(no_mangle)]
pub extern "C" fn fenpiling_new_branch(index: u32, generation: u16, types: u8, mask: u8) -> Packed
    ensures { (result.no ≡ packing_no generation) × (result.id ≡ new_branch index generation types mask) }
{
    capi_ids::fenpiling_new_branch(index, generation, types, mask)
}

#[unsafe(no_mangle)]
pub extern "C" fn fenpiling_index(raw: u64) -> u32
    ensures { result ≡ index_of raw }
{
    capi_ids::fenpiling_index(raw)
}

#[unsafe(no_mangle)]
pub extern "C" fn fenpiling_generation(raw: u64) -> u16
    ensures { result ≡ generation_of raw }
{
    capi_ids::fenpiling_generation(raw)
}

#[unsafe(no_mangle)]
pub extern "C" fn fenpiling_types(raw: u64) -> u8
    ensures { result ≡ types_of raw }
{
    capi_ids::fenpiling_types(raw)
}

#[unsafe(no_mangle)]
pub extern "C" fn fenpiling_mask(raw: u64) -> u8
    ensures { result ≡ mask_of raw }
{
    capi_ids::fenpiling_mask(raw)
}

#[unsafe(no_mangle)]
pub extern "C" fn fenpiling_has_child(raw: u64, child: u8) -> bool
    ensures { result ≡ has_child raw child }
{
    capi_ids::fenpiling_has_child(raw, child)
}

#[unsafe(no_mangle)]
pub extern "C" fn fenpiling_is_leaf(raw: u64) -> bool
    ensures { result ≡ is_leaf raw }
{
    capi_ids::fenpiling_is_leaf(raw)
}

#[unsafe(no_mangle)]
pub extern "C" fn fenpiling_is_branch(raw: u64) -> bool
    ensures { result ≡ is_branch raw }
{
    capi_ids::fenpiling_is_branch(raw)
}

#[unsafe(no_mangle)]
pub extern "C" fn fenpiling_is_invalid(raw: u64) -> bool
    ensures { result ≡ eqb raw invalid }
{
    capi_ids::fenpiling_is_invalid(raw)
}

#[unsafe(no_mangle)]
pub extern "C" fn fenpiling_is_valid(raw: u64) -> bool
    ensures { result ≡ not (eqb raw invalid) }
{
    capi_ids::fenpiling_is_valid(raw)
}

#[unsafe(no_mangle)]
pub extern "C" fn fenpiling_is_empty(raw: u64) -> bool
    ensures { result ≡ eqb raw empty }
{
    capi_ids::fenpiling_is_empty(raw)
}
