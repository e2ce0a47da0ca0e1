// Ids for C and Rust: each function calls the one of its name in the crate `ids`, and its contract cites the same definition.
// A refusal is a number beside the answer: 0 where the call is accepted.
#![tactic(auto)]

ghost use Rattle.std.specs.Prelude.{◌≡◌, not, eqb};
ghost use Rattle.ids.specs.Ids.{empty, invalid, index_of, generation_of, types_of, mask_of, has_child, is_leaf, is_branch, packing_no, new_leaf, new_branch};

use ids::BlockId;

// What packing answers: an id, or INVALID and the number of the refusal.
// Kept: C has the number beside the id.
#[repr(C)]
#[derive(Clone, Copy, Debug, PartialEq, Eq)]
pub struct Packed {
    pub no: u32,
    pub id: u64,
}

// An id, and the number of the refusal of packing with the generation.
fn answered(generation: u16, id: BlockId) -> Packed
    ensures { (result.no ≡ packing_no generation) × (result.id ≡ id.0) }
{
    Packed {
        no: BlockId::packing_no(generation),
        id: id.0,
    }
}

pub fn fenpiling_new_leaf(index: u32, generation: u16) -> Packed
    ensures { (result.no ≡ packing_no generation) × (result.id ≡ new_leaf index generation) }
{
    answered(generation, BlockId::new_leaf(index, generation))
}

pub fn fenpiling_new_branch(index: u32, generation: u16, types: u8, mask: u8) -> Packed
    ensures { (result.no ≡ packing_no generation) × (result.id ≡ new_branch index generation types mask) }
{
    answered(
        generation,
        BlockId::new_branch(index, generation, types, mask),
    )
}

pub fn fenpiling_index(raw: u64) -> u32
    ensures { result ≡ index_of raw }
{
    BlockId(raw).index()
}

pub fn fenpiling_generation(raw: u64) -> u16
    ensures { result ≡ generation_of raw }
{
    BlockId(raw).generation()
}

pub fn fenpiling_types(raw: u64) -> u8
    ensures { result ≡ types_of raw }
{
    BlockId(raw).types()
}

pub fn fenpiling_mask(raw: u64) -> u8
    ensures { result ≡ mask_of raw }
{
    BlockId(raw).mask()
}

pub fn fenpiling_has_child(raw: u64, child: u8) -> bool
    ensures { result ≡ has_child raw child }
{
    BlockId(raw).has_child(child)
}

pub fn fenpiling_is_leaf(raw: u64) -> bool
    ensures { result ≡ is_leaf raw }
{
    BlockId(raw).is_leaf()
}

pub fn fenpiling_is_branch(raw: u64) -> bool
    ensures { result ≡ is_branch raw }
{
    BlockId(raw).is_branch()
}

pub fn fenpiling_is_invalid(raw: u64) -> bool
    ensures { result ≡ eqb raw invalid }
{
    BlockId(raw).is_invalid()
}

pub fn fenpiling_is_valid(raw: u64) -> bool
    ensures { result ≡ not (eqb raw invalid) }
{
    BlockId(raw).is_valid()
}

pub fn fenpiling_is_empty(raw: u64) -> bool
    ensures { result ≡ eqb raw empty }
{
    BlockId(raw).is_empty()
}
