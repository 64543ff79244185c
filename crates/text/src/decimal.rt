// A number in decimal. Digits are stored from the last to the first.
ghost use Rattle.std.specs.Prelude.{◌≡◌, ◌+◌, ◌^◌, ◌≤◌, ◌<◌, length};
ghost use Rattle.lists.specs.Put.{put};
ghost use Rattle.text.specs.Decimal.{decimal_text};

use lists::stores::store;

// How many decimal digits n has.
pub fn decimal_length(n: u16) -> usize
    ensures { (result ≡ length (decimal_text n)) × (result ≤ 5) }
{
    if n < 100 {
        return if n < 10 { 1 } else { 2 };
    }
    if n < 1000 {
        return 3;
    }
    if n < 10000 { 4 } else { 5 }
}

// Answers where the number ends.
pub fn put_decimal(out: &mut [u8], at: usize, n: u16) -> usize
    requires { at + length (decimal_text n) < 2 ^ 64 }
    ensures end { (result ≡ at + length (decimal_text n)) × (result ≤ at + 5) }
    ensures text { out.new ≡ put at (decimal_text n) out.old }
{
    let size = decimal_length(n);
    let mut w = n;
    for i in (0..size).rev() {
        store(out, at + i, b'0' + (w % 10) as u8);
        w = w / 10;
    }
    at + size
}
