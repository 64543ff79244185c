// Signed numbers as sign and 64-bit size, and the window in which an immediate prints negative.
ghost use Rattle.std.specs.Prelude.{◌≡◌, ◌≤◌, ◌+ℤ◌, nat_abs};
ghost use Rattle.operand.specs.Memory.{is_negative};
ghost use Rattle.operand.specs.Operand.{signed_read, in_window};
ghost use Rattle.operand.specs.Sized.{sized_of, sized_difference};

use lists::signed::signed_at;

// A number's sign and size: the sum of an i64 and an i32 has one too.
#[derive(Clone, Copy)]
pub struct Sized {
    pub negative: bool,
    pub size: u64,
}

pub fn size_of(x: i64) -> Sized
    ensures { result ≡ sized_of x }
{
    Sized {
        negative: x.is_negative(),
        size: x.unsigned_abs(),
    }
}

// Whether a number lies from -4096 up to -1.
pub fn in_window(x: i64) -> bool
    ensures { result ≡ in_window x }
{
    (-4096 <= x) & (x < 0)
}

// An immediate's signed reading, and 0 for kinds that have none.
#[tactic(auto, unfolding(crate::specs::Operand::signed_read))]
pub fn signed_read(kind: u8, v: u64) -> i64
    ensures { result ≡ signed_read kind v }
{
    match kind {
        6 | 9 | 10 => signed_at(v, 0x8000_0000_0000_0000),
        5 | 8 => signed_at(v % 4294967296, 0x8000_0000),
        7 => signed_at(v % 65536, 0x8000),
        _ => 0,
    }
}

// The difference of two sizes.
fn difference(a: u64, b: u64) -> Sized
    ensures { result ≡ sized_difference a b }
{
    if a < b {
        return Sized {
            negative: true,
            size: b - a,
        };
    }
    Sized {
        negative: false,
        size: a - b,
    }
}

// The sum of a displacement and a shift.
pub fn shifted(x: i64, by: i32) -> Sized
    ensures { result ≡ sized_of (x +ℤ by) }
{
    let y = i64::from(by);
    let a = x.unsigned_abs();
    let b = y.unsigned_abs();
    if x.is_negative() {
        if y.is_negative() {
            return Sized {
                negative: true,
                size: a + b,
            };
        }
        return difference(b, a);
    }
    if y.is_negative() {
        return difference(a, b);
    }
    Sized {
        negative: false,
        size: a + b,
    }
}
