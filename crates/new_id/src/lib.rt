// The mask and the types of eight children, and the id of a branch that has them. Intern branch and the edit name their new branches with it.
#![tactic(auto)]

ghost use Rattle.std.specs.Prelude.{◌≡◌, Bool, ℕ, ◌%◌, ◌^◌, ◌<◌};
ghost use Rattle.ids.specs.Ids.{generation_of, new_branch};
ghost use Rattle.arena.specs.Node.{bits_of, kid_mask, kid_types};

use basics::Kids;
use ids::BlockId;

// The byte whose bit i is 1 exactly if the test is true of child i.
fn byte_of<F: Fn(u64) -> bool>(ks: Kids, test: F) -> u8
    requires { F.IsAlwaysCallable test }
    ensures { (p : ℕ → Bool) → ((k : ℕ) (r : Bool) → k < 2 ^ 64 → F.post test k r → r ≡ p k) → result ≡ bits_of p ks }
{
    u8::from(test(ks[0]))
        + 2 * u8::from(test(ks[1]))
        + 4 * u8::from(test(ks[2]))
        + 8 * u8::from(test(ks[3]))
        + 16 * u8::from(test(ks[4]))
        + 32 * u8::from(test(ks[5]))
        + 64 * u8::from(test(ks[6]))
        + 128 * u8::from(test(ks[7]))
}

// Mask bit i is 1 exactly if child i isn't EMPTY.
pub fn mask_of(ks: Kids) -> u8
    ensures { result ≡ kid_mask ks }
{
    byte_of(ks, |k| k != 0)
}

// Types bit i exactly if child i is a leaf.
pub fn types_of(ks: Kids) -> u8
    ensures { result ≡ kid_types ks }
{
    byte_of(ks, |k| BlockId(k).is_leaf())
}

// The id of a branch in slot s, whose own word is `o`, with these two bytes.
pub fn branch_with(types: u8, mask: u8, s: usize, o: u64) -> u64
    ensures { result ≡ new_branch (s % 2 ^ 32) (generation_of o) types mask }
{
    let id = BlockId::new_branch(
        (s % 0x1_0000_0000) as u32,
        BlockId(o).generation(),
        types,
        mask,
    );
    id.0
}

// The id of a branch of the children ks in slot s, whose own word is `o`.
pub fn branch_id(ks: Kids, s: usize, o: u64) -> u64
    ensures { result ≡ new_branch (s % 2 ^ 32) (generation_of o) (kid_types ks) (kid_mask ks) }
{
    branch_with(types_of(ks), mask_of(ks), s, o)
}
