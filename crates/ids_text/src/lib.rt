// The text of an id.
#![tactic(auto)]

ghost use Rattle.std.specs.Prelude.{◌≡◌, Some, ◌+◌, ◌<◌, ◌≤◌, take};
ghost use Rattle.basics.specs.Codes.{codes};
ghost use Rattle.basics.specs.Puts.{puts_from};
ghost use Rattle.ids_text.specs.Text.{digit as digit_of, hex, leaf_text, branch_text, padded, id_text_of, shown};

use ids::BlockId;
use std::{fmt, str};

// A text of at most 41 bytes; those from `len` on are 0.
// Kept: `len` stands in no invariant, since the definition `padded` is such a value for every list, however long.
#[derive(Clone, Copy, Debug, PartialEq, Eq)]
pub struct IdText {
    pub bytes: [u8; 41],
    pub len: usize,
}

impl IdText {
    // The bytes of the text alone.
    pub fn as_bytes(&self) -> &[u8]
        ensures { result.now ≡ take self.now.len self.now.bytes }
    {
        self.bytes.get(..self.len).unwrap_or(&self.bytes)
    }
}

// As the text is; nothing of bytes that are not UTF-8, which no id's text has.
impl fmt::Display for IdText {
    ghost output = { λ text. Some (shown text) };

    fn fmt<W: fmt::Write>(&self, f: &mut fmt::Formatter<W>) -> fmt::Result {
        match str::from_utf8(self.as_bytes()) {
            Ok(text) => f.write_str(text),
            Err(_) => f.write_str(""),
        }
    }
}

// The text form. Any 64-bit number has one.
#[tactic(auto, using(crate::proofs::Texts::text_invalid, crate::proofs::Texts::text_empty, crate::proofs::Texts::text_leaf, crate::proofs::Texts::text_branch))]
pub fn text(id: BlockId) -> IdText
    ensures { result ≡ id_text_of id.0 }
{
    if id.is_invalid() {
        return invalid_text();
    }
    if id.is_empty() {
        return empty_text();
    }
    if id.is_leaf() {
        return leaf_text(id.index(), id.generation());
    }
    branch_text(id.index(), id.generation(), id.mask(), id.types())
}

#[tactic(auto, unfolding(crate::specs::Text::padded))]
fn invalid_text() -> IdText
    ensures { result ≡ padded (codes "Id(INVALID)") }
{
    IdText {
        bytes: *b"Id(INVALID)\0\0\0\0\0\0\0\0\0\0\0\0\0\0\0\0\0\0\0\0\0\0\0\0\0\0\0\0\0\0",
        len: 11,
    }
}

#[tactic(auto, unfolding(crate::specs::Text::padded))]
fn empty_text() -> IdText
    ensures { result ≡ padded (codes "Id(EMPTY)") }
{
    IdText {
        bytes: *b"Id(EMPTY)\0\0\0\0\0\0\0\0\0\0\0\0\0\0\0\0\0\0\0\0\0\0\0\0\0\0\0\0\0\0\0\0",
        len: 9,
    }
}

#[tactic(auto, using(crate::proofs::Texts::leaf_written))]
fn leaf_text(index: u32, generation: u16) -> IdText
    ensures { result ≡ padded (leaf_text index generation) }
{
    let blank = *b"Id(L, i: 00000000, g: 0000)\0\0\0\0\0\0\0\0\0\0\0\0\0\0";
    let with_index = put_hex(blank, 9, 8, index);
    IdText {
        bytes: put_hex(with_index, 22, 4, generation as u32),
        len: 27,
    }
}

#[tactic(auto, using(crate::proofs::Texts::branch_written))]
fn branch_text(index: u32, generation: u16, mask: u8, types: u8) -> IdText
    ensures { result ≡ padded (branch_text index generation mask types) }
{
    let blank = *b"Id(B, i: 00000000, g: 0000, m: 00, t: 00)";
    let with_index = put_hex(blank, 9, 8, index);
    let with_generation = put_hex(with_index, 22, 4, generation as u32);
    let with_mask = put_hex(with_generation, 31, 2, mask as u32);
    IdText {
        bytes: put_hex(with_mask, 38, 2, types as u32),
        len: 41,
    }
}

// A capital hex digit.
#[tactic(auto, using(crate::proofs::Texts::low_digit, crate::proofs::Texts::high_digit))]
fn digit(d: u32) -> u8
    requires { d < 16 }
    ensures { result ≡ digit_of d }
{
    if d < 10 {
        b'0' + d as u8
    } else {
        b'A' + (d - 10) as u8
    }
}

// The last n hex digits of v, written from `at` on.
fn put_hex(mut bytes: [u8; 41], at: usize, n: usize, v: u32) -> [u8; 41]
    requires { at + n ≤ 41 }
    ensures { result ≡ puts_from bytes at (hex n v) }
{
    let mut rest = v;
    for place in (at..at + n).rev() {
        bytes[place] = digit(rest % 16);
        rest /= 16;
    }
    bytes
}
