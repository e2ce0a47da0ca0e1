// Ids of nodes: a compact 64-bit number that carries a node's kind, its children's kinds and presence, its generation and its slot.
#![tactic(auto)]

ghost use Rattle.std.specs.Prelude.{◌≡◌, ◌<◌, not, eqb};
ghost use Rattle.basics.specs.Bits.{field};
ghost use Rattle.basics.specs.Pick.{pick};
ghost use Rattle.ids.specs.Ids.{empty, invalid, index_of, generation_of, types_of, mask_of, has_child, is_leaf, is_branch, is_end, packing_no, new_leaf, new_branch};

// The lowest id of a leaf: bit 63 is the leaf flag.
pub const LOWEST_LEAF: u64 = 0x8000_0000_0000_0000;

// An id. Its 64 bits, from the highest: leaf (1), types (8), mask (8), generation (15), index (32).
#[repr(C)]
#[derive(Clone, Copy, Debug, PartialEq, Eq)]
pub struct BlockId(pub u64);

impl BlockId {
    // No node: all bits 1.
    pub const INVALID: BlockId = BlockId(0xFFFF_FFFF_FFFF_FFFF);

    // Nothing there: all bits 0.
    pub const EMPTY: BlockId = BlockId(0);

    pub const MAX_INDEX: u32 = 0xFFFF_FFFF;

    // The largest generation that packing accepts.
    pub const MAX_GENERATION: u16 = 0x7FFE;

    // Kept: `from_raw` and `raw` are calls that users have; a `From` beside them would be no plainer.
    pub fn from_raw(raw: u64) -> Self
        ensures { result.0 ≡ raw }
    {
        BlockId(raw)
    }

    pub fn raw(self) -> u64
        ensures { result ≡ self.0 }
    {
        self.0
    }

    // The number of the refusal of packing, 12, or 0 where it accepts.
    // Kept: C has the number beside the id (`fenpiling_new_leaf`), and `packing_no` is what the theorem `pack_refusals` speaks of.
    #[tactic(auto, using(crate::proofs::Fields::accepts, crate::proofs::Fields::refuses))]
    pub fn packing_no(generation: u16) -> u32
        ensures { result ≡ packing_no generation }
    {
        if generation <= BlockId::MAX_GENERATION {
            0
        } else {
            12
        }
    }

    // The id of a leaf, or INVALID where packing refuses.
    // Kept: 01 has INVALID for the answer, which the definition `new_leaf` states (`packed_valid`).
    #[tactic(auto, using(crate::proofs::Fields::leaf_refused, crate::proofs::Fields::leaf_packed))]
    pub fn new_leaf(index: u32, generation: u16) -> Self
        ensures { result.0 ≡ new_leaf index generation }
    {
        if BlockId::packing_no(generation) != 0 {
            return BlockId::INVALID;
        }
        BlockId(LOWEST_LEAF + (generation as u64) * 0x1_0000_0000 + (index as u64))
    }

    // The id of a branch, or INVALID where packing refuses.
    // Kept: as of a leaf, by the definition `new_branch`.
    #[tactic(auto, using(crate::proofs::Fields::branch_refused, crate::proofs::Fields::branch_packed))]
    pub fn new_branch(index: u32, generation: u16, types: u8, mask: u8) -> Self
        ensures { result.0 ≡ new_branch index generation types mask }
    {
        if BlockId::packing_no(generation) != 0 {
            return BlockId::INVALID;
        }
        BlockId(
            (types as u64) * 0x80_0000_0000_0000
                + (mask as u64) * 0x8000_0000_0000
                + (generation as u64) * 0x1_0000_0000
                + (index as u64),
        )
    }

    #[tactic(auto, unfolding(crate::specs::Ids::index_of))]
    pub fn index(self) -> u32
        ensures { result ≡ index_of self.0 }
    {
        (self.0 % 0x1_0000_0000) as u32
    }

    #[tactic(auto, unfolding(crate::specs::Ids::generation_of))]
    pub fn generation(self) -> u16
        ensures { result ≡ generation_of self.0 }
    {
        (self.0 / 0x1_0000_0000 % 0x8000) as u16
    }

    // The byte that begins at this bit; 0 of a leaf.
    #[tactic(auto, using(crate::proofs::Fields::byte_leaf, crate::proofs::Fields::byte_branch))]
    fn byte_from(self, at: u32) -> u8
        requires { at < 64 }
        ensures { result ≡ pick (is_leaf self.0) 0 (field at 8 self.0) }
    {
        if self.is_leaf() {
            return 0;
        }
        ((self.0 >> at) % 0x100) as u8
    }

    // Which children are leaves, a bit each; 0 of a leaf.
    #[tactic(auto, unfolding(crate::specs::Ids::types_of, crate::specs::Ids::types_field))]
    pub fn types(self) -> u8
        ensures { result ≡ types_of self.0 }
    {
        self.byte_from(55)
    }

    // Which children there are, a bit each; 0 of a leaf.
    #[tactic(auto, unfolding(crate::specs::Ids::mask_of, crate::specs::Ids::mask_field))]
    pub fn mask(self) -> u8
        ensures { result ≡ mask_of self.0 }
    {
        self.byte_from(47)
    }

    // Is there a child of this number? No of a leaf, and no above 7.
    #[tactic(auto, using(crate::proofs::Fields::child_above, crate::proofs::Fields::child_bit))]
    pub fn has_child(self, child_index: u8) -> bool
        ensures { result ≡ has_child self.0 child_index }
    {
        if 8 <= child_index {
            return false;
        }
        (self.mask() >> child_index) % 2 == 1
    }

    #[tactic(auto, using(crate::proofs::Fields::leaf_test))]
    pub fn is_leaf(self) -> bool
        ensures { result ≡ is_leaf self.0 }
    {
        self.0 / 0x8000_0000_0000_0000 == 1
    }

    #[tactic(auto, using(crate::proofs::Fields::branch_test))]
    pub fn is_branch(self) -> bool
        ensures { result ≡ is_branch self.0 }
    {
        self.0 / 0x8000_0000_0000_0000 == 0
    }

    // EMPTY or a leaf, which has no children and stands for eight of itself.
    #[tactic(auto, unfolding(crate::specs::Ids::is_end))]
    pub fn is_end(self) -> bool
        ensures { result ≡ is_end self.0 }
    {
        self.is_empty() || LOWEST_LEAF <= self.0
    }

    pub fn is_invalid(self) -> bool
        ensures { result ≡ eqb self.0 invalid }
    {
        self == BlockId::INVALID
    }

    pub fn is_valid(self) -> bool
        ensures { result ≡ not (eqb self.0 invalid) }
    {
        self != BlockId::INVALID
    }

    pub fn is_empty(self) -> bool
        ensures { result ≡ eqb self.0 empty }
    {
        self == BlockId::EMPTY
    }
}
