// The writer of a number, which has room for it: each character is stored once, and one is added beside each store.
ghost use Rattle.std.specs.Prelude.{◌≡◌, Bool, true, false, ◌++◌, ◌+◌, ◌<◌, ◌≤◌, length};
ghost use Rattle.lists.specs.Put.{put};
ghost use Rattle.text.specs.Number.{digit, hex_text, size_text, num_text};

use crate::number::{digit_of, hex_count};
use lists::stores::put_slice;

// v in hex, from the last digit to the first.
fn write_hex(out: &mut [u8], upper: bool, v: u64) -> usize
    requires { length (hex_text upper v) ≤ length out.old }
    ensures count { (result ≡ length (hex_text upper v)) × (result ≤ 16) }
    ensures text { out.new ≡ put 0 (hex_text upper v) out.old }
{
    let n = hex_count(v);
    let mut w = v;
    for i in (0..n).rev() {
        out[i] = digit_of(upper, w % 16);
        w = w / 16;
    }
    n
}

// Below 10 one character, else 0x and hex behind it.
#[tactic(auto, unfolding(crate::specs::Number::size_text))]
fn write_size(out: &mut [u8], size: u64) -> usize
    requires { length (size_text size) ≤ length out.old }
    ensures count { (result ≡ length (size_text size)) × (result ≤ 18) }
    ensures text { out.new ≡ put 0 (size_text size) out.old }
{
    let mut n: usize = 0;
    if size < 10 {
        out[n] = b'0' + size as u8;
        n += 1;
        return n;
    }
    out[n] = b'0';
    n += 1;
    out[n] = b'x';
    n += 1;
    n + write_hex(&mut out[n..], false, size)
}

// A number by its sign and size.
#[tactic(auto, unfolding(crate::specs::Number::num_text, crate::specs::Number::sign))]
pub fn write_num(out: &mut [u8], negative: bool, size: u64) -> usize
    requires { length (num_text negative size) ≤ length out.old }
    ensures count { (result ≡ length (num_text negative size)) × (result ≤ 19) }
    ensures text { out.new ≡ put 0 (num_text negative size) out.old }
{
    if negative {
        let mut n: usize = 0;
        out[n] = b'-';
        n += 1;
        return n + write_size(&mut out[n..], size);
    }
    write_size(out, size)
}

// A prefix and upper-case hex, as in loc_1010.
pub fn write_prefixed(out: &mut [u8], prefix: &[u8], v: u64) -> usize
    requires { length (prefix.now ++ hex_text true v) ≤ length out.old }
    ensures count { (result ≡ length (prefix.now ++ hex_text true v)) × (result ≤ length prefix.now + 16) }
    ensures text { out.new ≡ put 0 (prefix.now ++ hex_text true v) out.old }
{
    let n = put_slice(out, prefix);
    n + write_hex(&mut out[n..], true, v)
}
