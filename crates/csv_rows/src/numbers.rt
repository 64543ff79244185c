// An address as a field. Digits are stored from the last to the first; there is room for them.
ghost use Rattle.std.specs.Prelude.{true, ◌+◌, ◌≤◌, length};
ghost use Rattle.text.specs.Number.{hex_digits};
ghost use Rattle.csv_rows.specs.Writing.{Wrote};

use lists::stores::store;
use text::number::digit_of;

// Sixteen upper hex digits.
#[tactic(auto, using(crate::proofs::Digits::hex_turn))]
pub fn put_sixteen(out: &mut [u8], at: usize, v: u64) -> usize
    requires { at + 16 ≤ length out.old }
    ensures { Wrote at (hex_digits true 16 v) out.old out.new result }
{
    let mut w = v;
    for i in (0..16).rev() {
        store(out, at + i, digit_of(true, w % 16));
        w /= 16;
    }
    at + 16
}
