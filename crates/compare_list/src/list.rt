// The lent list.

ghost use Rattle.std.specs.Prelude.{◌≡◌, length};

// Three parts, equally long: codes, left values, right values.
#[derive(Drop)]
pub struct List<'a> {
    pub codes: &'a mut [u32],
    pub lefts: &'a mut [u16],
    pub rights: &'a mut [u16],
    ghost same: { (length lefts.now ≡ length codes.now) × (length rights.now ≡ length codes.now) },
}
