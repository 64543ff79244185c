// The page: the line count, then the lines.
ghost use Rattle.std.specs.Prelude.{◌≡◌, ◌+◌, ◌≤◌, length};
ghost use Rattle.std.proofs.Math.Seq.{slice};
ghost use Rattle.lists.specs.Put.{put};
ghost use Rattle.page.specs.Page.{count_line, tokens_end, lines_end, lines_text, page_text};

use crate::line::put_line;
use crate::number::put_numbered;
use lists::parts::{from, part};
use lists::reads::element_or;
use rows::listing::Listing;

// Where the first k tokens end.
fn tokens_end(ends: &[u32], k: u32) -> usize
    ensures { result ≡ tokens_end ends.now k }
{
    if k == 0 {
        return 0;
    }
    element_or(ends, k as usize - 1, 0) as usize
}

// Where the first i lines end.
fn lines_end(ends: &[u32], lines: &[u32], i: usize) -> usize
    ensures { result ≡ lines_end ends.now lines.now i }
{
    if i == 0 {
        return 0;
    }
    tokens_end(ends, element_or(lines, i - 1, 0))
}

// The bytes from one place up to another.
fn between(text: &[u8], start: usize, end: usize) -> &[u8]
    ensures { (result.now ≡ slice start end text.now) × (length result.now ≤ length text.now) }
{
    from(part(text, 0, end), start)
}

// The line count, before the lines; answers where it ends.
pub fn put_count(out: &mut [u8], n: u16) -> usize
    ensures end { (result ≡ length (count_line n)) × (result ≤ 12) }
    ensures text { out.new ≡ put 0 (count_line n) out.old }
{
    put_numbered(out, b"lines=", n)
}

// The lines from i on, k of them; answers where they end.
// It stays by index: three lists are read, past their ends as 0, which `zip` would stop at.
pub fn put_lines(out: &mut [u8], at: usize, i: usize, k: usize, l: &Listing<'_>) -> usize
    requires { (at ≤ 12) × (i ≤ 65535) × (k ≤ 2000) × (length l.now.text ≤ 262144) }
    ensures end { result ≡ at + length (lines_text l.now i k) }
    ensures text { out.new ≡ put at (lines_text l.now i k) out.old }
{
    let last = i + k;
    let mut start = lines_end(l.ends, l.lines, i);
    let mut p = at;
    for j in i..last {
        let end = tokens_end(l.ends, element_or(l.lines, j, 0));
        let bytes = between(l.text, start, end);
        let mark = element_or(l.marks, j, 0);
        let address = element_or(l.addresses, j, 0);
        p = put_line(out, p, mark, address, bytes);
        start = end;
    }
    p
}

// The first n lines; answers where the page ends.
pub fn put_page(out: &mut [u8], n: usize, l: &Listing<'_>) -> usize
    requires { (n ≤ 900) × (length l.now.text ≤ 65536) }
    ensures end { result ≡ length (page_text l.now n) }
    ensures text { out.new ≡ put 0 (page_text l.now n) out.old }
{
    let at = put_count(out, n as u16);
    put_lines(out, at, 0, n, l)
}
