// The table of registers, mnemonics and conditions, as a caller lends it: what stands at a number's place.
ghost use Rattle.std.specs.Prelude.{◌≡◌, ◌+◌, ◌*◌, ltb};
ghost use Rattle.lists.specs.Bytes.{u8_at};
ghost use Rattle.lists.specs.Choice.{pick};
ghost use Rattle.x86.specs.Table.{isa_bytes};

use lists::reads::u8_at;

#[derive(Clone, Copy)]
pub struct Isa<'a> {
    pub bytes: &'a [u8],
    pub ghost whole: { bytes.now ≡ isa_bytes },
}

// The byte of number k in a column of n numbers, and `other` past them.
pub fn column(isa: &[u8], at: u16, step: u8, n: u8, k: u8, other: u8) -> u8
    ensures { result ≡ pick (ltb k n) (u8_at isa.now (at + step * k)) other }
{
    if k < n {
        u8_at(isa, at as usize + step as usize * k as usize)
    } else {
        other
    }
}

impl<'a> Isa<'a> {
    // A column of the one table.
    pub fn column(self, at: u16, step: u8, n: u8, k: u8, other: u8) -> u8
        ensures { result ≡ pick (ltb k n) (u8_at isa_bytes (at + step * k)) other }
    {
        column(self.bytes, at, step, n, k, other)
    }
}
