// A line: its address or dashes, a space, two spaces for each indent, the text, LF.
ghost use Rattle.std.specs.Prelude.{◌≡◌, ◌+◌, ◌*◌, ◌%◌, ◌^◌, ◌≤◌, length, replicate};
ghost use Rattle.lists.specs.Put.{put};
ghost use Rattle.page.specs.Page.{address_text, line_of};

use lists::stores::{put_slice, store};
use text::number::{hex_count, put_hex};

// The same byte n times.
fn put_run(out: &mut [u8], at: usize, n: usize, b: u8)
    requires { at + n ≤ 2 ^ 32 }
    ensures { out.new ≡ put at (replicate n b) out.old }
{
    let start = at.min(out.len());
    let end = (at + n).min(out.len());
    out[start..end].fill(b);
}

fn put_text(out: &mut [u8], at: usize, s: &[u8])
    ensures { out.new ≡ put at s.now out.old }
{
    let m = at.min(out.len());
    put_slice(&mut out[m..], s);
}

// Sixteen bytes.
fn put_address(out: &mut [u8], at: usize, mark: u16, address: u64)
    requires { at + 16 ≤ 2 ^ 32 }
    ensures { out.new ≡ put at (address_text mark address) out.old }
{
    if mark < 256 {
        put_run(out, at, 16, b'-');
        return;
    }
    let zeros = 16 - hex_count(address);
    put_run(out, at, zeros, b'0');
    let m = (at + zeros).min(out.len());
    put_hex(&mut out[m..], true, address);
}

// Two spaces for each indent.
fn indent_spaces(mark: u16) -> usize
    ensures { (result ≡ 2 * (mark % 256)) × (result ≤ 510) }
{
    2 * (mark % 256) as usize
}

// Answers where the line ends.
pub fn put_line(out: &mut [u8], at: usize, mark: u16, address: u64, s: &[u8]) -> usize
    requires { at + 528 + length s.now ≤ 2 ^ 32 }
    ensures end { (result ≡ at + length (line_of mark address s.now)) × (result ≤ at + 528 + length s.now) }
    ensures text { out.new ≡ put at (line_of mark address s.now) out.old }
{
    let spaces = 1 + indent_spaces(mark);
    put_address(out, at, mark, address);
    put_run(out, at + 16, spaces, b' ');
    put_text(out, at + 16 + spaces, s);
    let end = at + 16 + spaces + s.len();
    store(out, end, b'\n');
    end + 1
}
