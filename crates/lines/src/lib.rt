// Text and numbers, written into lent bytes: what the lines of a listing are made of.
#![tactic(auto)]

ghost use Rattle.std.specs.Prelude.{◌≡◌, ◌+◌, ◌≤◌, [], ◌∷◌, ◌++◌, length, set};
ghost use Rattle.basics.specs.Puts.{puts_from};
ghost use Rattle.lines.specs.Lines.{digits_of, decimal};

// Writes one byte, `i` places after `at`; nothing past the end.
fn put(out: &mut [u8], at: usize, i: usize, byte: u8)
    ensures { out.new ≡ set out.old (at + i) byte }
{
    if at < out.len() && i < out.len() - at {
        out[at + i] = byte;
    }
}

// Writes a text from `at` on, as far as there is room; answers how many bytes it has.
#[tactic(auto, using(basics::proofs::Puts::puts_none, basics::proofs::Puts::puts_more))]
pub fn put_text(out: &mut [u8], at: usize, text: &[u8]) -> usize
    ensures { (out.new ≡ puts_from out.old at text.now) × (result ≡ length text.now) }
{
    for (i, byte) in text.iter().enumerate() {
        put(out, at, i, *byte);
    }
    text.len()
}

// Writes a number in at most `left` decimal digits, and answers how many it took.
fn put_digits(out: &mut [u8], at: usize, n: u64, left: usize) -> usize
    ensures { (out.new ≡ puts_from out.old at (digits_of left n)) × (result ≡ length (digits_of left n)) × (result ≤ left) }
{
    if left == 0 {
        return 0;
    }
    if n < 10 {
        put(out, at, 0, (48 + n) as u8);
        return 1;
    }
    let front = put_digits(out, at, n / 10, left - 1);
    put(out, at, front, (48 + n % 10) as u8);
    front + 1
}

// Writes a number in decimal and a byte after it, from `at` on, as far as there is room; answers how many bytes that is.
pub fn put_number(out: &mut [u8], at: usize, n: u64, end: u8) -> usize
    ensures { (out.new ≡ puts_from out.old at (decimal n ++ (end ∷ []))) × (result ≡ length (decimal n ++ (end ∷ []))) × (result ≤ 21) }
{
    let digits = put_digits(out, at, n, 20);
    put(out, at, digits, end);
    digits + 1
}
