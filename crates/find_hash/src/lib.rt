// The hash of a content, the hash after a change of one child, and the first cell of the finding table to look at for a hash. See specs/Hash.antt.
#![tactic(auto)]

ghost use Rattle.std.specs.Prelude.{◌≡◌};
ghost use Rattle.find_hash.specs.Hash.{factor as factor_of, term as term_of, kids_hash, rekids_hash, leaf_hash, even_hash, home_in};

use basics::{Kids, MOST_SLOTS, SLOT_HOMES};

// The factor of child i.
// Kept: a table indexed by a variable would be written anew at each call; this one is not.
#[tactic(auto, unfolding(crate::specs::Hash::factor), using(crate::proofs::Hashes::none_of_lem))]
fn factor(i: usize) -> u64
    ensures { result ≡ factor_of i }
{
    match i {
        0 => 0x9E37_79B1,
        1 => 0x85EB_CA77,
        2 => 0xC2B2_AE3D,
        3 => 0x27D4_EB2F,
        4 => 0x1656_67B1,
        5 => 0xD6E8_FEB9,
        6 => 0xA136_AAAD,
        7 => 0x7FEB_352D,
        _ => 0,
    }
}

// What child i brings, the id k.
#[tactic(auto, using(crate::proofs::Hashes::product_code, crate::proofs::Hashes::product_fits))]
fn term(i: usize, k: u64) -> u64
    ensures { result ≡ term_of i k }
{
    (k % 0x1_0000_0000) * factor(i)
}

// The hash of a branch.
pub fn kids_hash(ks: Kids) -> u32
    ensures { result ≡ kids_hash ks }
{
    let mut sum: u64 = 0;
    for (i, k) in ks.iter().enumerate() {
        sum = sum.wrapping_add(term(i, *k));
    }
    (sum % 0x1_0000_0000) as u32
}

// The hash after child i, the id `old`, became `new`.
pub fn rehash(hash: u32, i: usize, old: u64, new: u64) -> u32
    ensures { result ≡ rekids_hash hash i old new }
{
    let by = term(i, new).wrapping_sub(term(i, old));
    let sum = u64::from(hash).wrapping_add(by);
    (sum % 0x1_0000_0000) as u32
}

// The hash of a leaf.
pub fn leaf_hash(v: u32) -> u32
    ensures { result ≡ leaf_hash v }
{
    (u64::from(v) * 0x9E37_79B1 % 0x1_0000_0000) as u32
}

// The hash of a branch with eight times one child: the factors' sum.
#[tactic(auto, unfolding(crate::specs::Hash::even_hash))]
pub fn even_hash(k: u64) -> u32
    ensures { result ≡ even_hash k }
{
    ((k % 0x1_0000_0000) * 0x1D0C_23D8 % 0x1_0000_0000) as u32
}

// A hash's home, below four times the capacity.
#[tactic(auto, using(crate::proofs::Hashes::home_fits, crate::proofs::Hashes::home_small, crate::proofs::Hashes::home_large))]
pub fn home_in(capacity: usize, h: u32) -> usize
    ensures { result ≡ home_in capacity h }
{
    if capacity <= MOST_SLOTS {
        return h as usize * (SLOT_HOMES * capacity) / 0x1_0000_0000;
    }
    0
}
