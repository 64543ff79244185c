// The text of codes, byte by byte, with nothing stored.
ghost use Rattle.std.specs.Prelude.{◌≡◌, ◌+◌, ◌≤◌, length, take, nat_le, slice_index};
ghost use Rattle.lists.specs.Choice.{pick};
ghost use Rattle.x86.specs.Words.{same_word};
ghost use Rattle.codes.specs.Coded.{count_in, codes_in};
ghost use Rattle.codes.specs.Code.{line_end, what_in, has_value, text_in, decode};
ghost use Rattle.codes.specs.Spelled.{spelled};

use lists::parts::part;
use lists::reads::{element_or, u8_at};
use text::bytes::{literal_byte, num_byte, prefixed_byte};
use text::lengths::{literal_length, num_length};
use text::number::hex_count;

// The codes of a list that holds all of them.
pub fn codes_of(codes: &[u64]) -> &[u64]
    requires { 5 + count_in codes.now ≤ length codes.now }
    ensures { result.now ≡ take (count_in codes.now) (codes_in codes.now) }
{
    let n = codes[2] as usize;
    &codes[5..5 + n]
}

// How many numbers a code takes.
pub fn width(c: u64) -> usize
    ensures { result ≡ pick (has_value c) 2 1 }
{
    if (2 <= c / 16 % 16) & (c / 16 % 16 <= 4) {
        2
    } else {
        1
    }
}

// What a text is made of stays a number: it is four bits of a code in the lent list.

// How many bytes the text of a code has.
#[tactic(auto, unfolding(crate::specs::Code::text_in))]
fn length_in(tables: &[u8], rec: &[u8], c: u64, v: u64) -> usize
    ensures { result ≡ length (text_in tables.now rec.now c v) }
{
    let what = c / 16 % 16;
    let at = (c / 16777216) as usize;
    let n = (c / 256 % 65536) as usize;
    match what {
        0 => part(tables, at, n).len(),
        1 => part(rec, at, n).len(),
        2 => num_length(false, v),
        3 => num_length(true, v),
        4 => part(tables, at + 2, u8_at(tables, at + 1) as usize).len() + hex_count(v),
        _ => literal_length(what == 6, part(rec, at, n)),
    }
}

// Byte j of the text of a code; past its end 0.
#[tactic(auto, unfolding(crate::specs::Code::text_in))]
fn byte_in(tables: &[u8], rec: &[u8], c: u64, v: u64, j: usize) -> u8
    ensures { result ≡ slice_index (text_in tables.now rec.now c v) j }
{
    let what = c / 16 % 16;
    let at = (c / 16777216) as usize;
    let n = (c / 256 % 65536) as usize;
    match what {
        0 => u8_at(part(tables, at, n), j),
        1 => u8_at(part(rec, at, n), j),
        2 => num_byte(false, v, j),
        3 => num_byte(true, v, j),
        4 => prefixed_byte(part(tables, at + 2, u8_at(tables, at + 1) as usize), v, j),
        _ => literal_byte(what == 6, part(rec, at, n), j),
    }
}

// How many bytes a code adds: the end of a line has none.
fn length_of(tables: &[u8], rec: &[u8], c: u64, v: u64) -> usize
    ensures { result ≡ pick (nat_le line_end (what_in c)) 0 (length (text_in tables.now rec.now c v)) }
{
    if 7 <= c / 16 % 16 {
        return 0;
    }
    length_in(tables, rec, c, v)
}

// Byte j of the text of all codes of a list; past its end 0. k counts from the code at index i on.
// No `for`: a code takes one number or two.
fn byte_at(tables: &[u8], rec: &[u8], codes: &[u64], j: usize) -> u8
    ensures { result ≡ slice_index (spelled (decode tables.now rec.now codes.now)) j }
{
    let mut i = 0;
    let mut k = j;
    while i < codes.len() {
        let c = codes[i];
        let v = element_or(codes, i + 1, 0);
        let n = length_of(tables, rec, c, v);
        if k < n {
            return byte_in(tables, rec, c, v, k);
        }
        k -= n;
        i += width(c);
    }
    0
}

// Whether the texts of two lists of codes, each of n bytes, are the same.
pub fn same_texts(tables: &[u8], rec: &[u8], a: &[u64], b: &[u64], n: usize) -> bool
    requires n_value { n ≡ length (spelled (decode tables.now rec.now a.now)) }
    requires n_value_2 { n ≡ length (spelled (decode tables.now rec.now b.now)) }
    ensures { result ≡ same_word (spelled (decode tables.now rec.now a.now)) (spelled (decode tables.now rec.now b.now)) }
{
    for j in 0..n {
        if byte_at(tables, rec, a, j) != byte_at(tables, rec, b, j) {
            return false;
        }
    }
    true
}
