// Registers by number: class × 16 + index, 0 for none.
ghost use Rattle.std.specs.Prelude.{◌≡◌};
ghost use Rattle.x86.specs.Registers.{class_size, register_exists, full_register, register_size, callee_saved};
ghost use Rattle.x86.specs.Table.{missing_table};

use super::table::Isa;
use lists::reads::plain_u8;

const CLASS_SIZES: [u16; 10] = [0, 16, 4, 16, 16, 16, 2, 6, 16, 16];

// How many registers a class has.
fn class_size(class: u16) -> u16
    ensures { result ≡ class_size class }
{
    if class < 10 {
        CLASS_SIZES[class as usize]
    } else {
        0
    }
}

pub fn register_exists(r: u16) -> bool
    ensures { result ≡ register_exists r }
{
    (r == 0) | (r % 16 < class_size(r / 16))
}

// By byte: 1 where it is no register's number.
pub type MissingTable = [u8; 256];

const MISSING: MissingTable = *b"\
    \0\x01\x01\x01\x01\x01\x01\x01\x01\x01\x01\x01\x01\x01\x01\x01\
    \0\0\0\0\0\0\0\0\0\0\0\0\0\0\0\0\
    \0\0\0\0\x01\x01\x01\x01\x01\x01\x01\x01\x01\x01\x01\x01\
    \0\0\0\0\0\0\0\0\0\0\0\0\0\0\0\0\
    \0\0\0\0\0\0\0\0\0\0\0\0\0\0\0\0\
    \0\0\0\0\0\0\0\0\0\0\0\0\0\0\0\0\
    \0\0\x01\x01\x01\x01\x01\x01\x01\x01\x01\x01\x01\x01\x01\x01\
    \0\0\0\0\0\0\x01\x01\x01\x01\x01\x01\x01\x01\x01\x01\
    \0\0\0\0\0\0\0\0\0\0\0\0\0\0\0\0\
    \0\0\0\0\0\0\0\0\0\0\0\0\0\0\0\0\
    \x01\x01\x01\x01\x01\x01\x01\x01\x01\x01\x01\x01\x01\x01\x01\x01\
    \x01\x01\x01\x01\x01\x01\x01\x01\x01\x01\x01\x01\x01\x01\x01\x01\
    \x01\x01\x01\x01\x01\x01\x01\x01\x01\x01\x01\x01\x01\x01\x01\x01\
    \x01\x01\x01\x01\x01\x01\x01\x01\x01\x01\x01\x01\x01\x01\x01\x01\
    \x01\x01\x01\x01\x01\x01\x01\x01\x01\x01\x01\x01\x01\x01\x01\x01\
    \x01\x01\x01\x01\x01\x01\x01\x01\x01\x01\x01\x01\x01\x01\x01\x01";

// What question 8 reads of a body that is there.
pub fn missing_table() -> MissingTable
    ensures { result ≡ missing_table }
{
    MISSING
}

// That table, lent.
#[derive(Clone, Copy)]
pub struct Missing<'a> {
    pub bytes: &'a [u8],
    pub ghost whole: { bytes.now ≡ missing_table },
}

// Whether a byte is a register's number, by one read.
pub fn register_known(missing: Missing<'_>, r: u8) -> bool
    ensures { result ≡ register_exists r }
{
    plain_u8(missing.bytes, r as usize) == 0
}

pub fn full_register(isa: Isa<'_>, r: u8) -> u8
    ensures { result ≡ full_register r }
{
    isa.column(6, 8, 160, r, r)
}

pub fn register_size(isa: Isa<'_>, r: u8) -> u8
    ensures { result ≡ register_size r }
{
    isa.column(7, 8, 160, r, 0)
}

// rbx rbp rsi rdi and r12 to r15, or a part of one.
pub fn callee_saved(isa: Isa<'_>, r: u8) -> bool
    ensures { result ≡ callee_saved r }
{
    let f = full_register(isa, r);
    (f == 83) | (f == 85) | (f == 86) | (f == 87) | (f == 92) | (f == 93) | (f == 94) | (f == 95)
}
