// Byte j of a text, with nothing stored; past its end 0.
ghost use Rattle.std.specs.Prelude.{◌≡◌, true, false, [], ◌∷◌, ◌++◌, ltb, length, take, get_or};
ghost use Rattle.lists.specs.Ascii.{ascii};
ghost use Rattle.text.specs.Number.{hex_text, size_text, num_text};
ghost use Rattle.text.specs.Literal.{code_text, letter_or, escape, escapes, opening, closing, literal_text};

use crate::lengths::{escape_length, opening_length};
use crate::number::{digit_of, hex_count};

// The digits behind the j-th are divided away.
pub fn hex_byte(upper: bool, v: u64, j: usize) -> u8
    ensures { result ≡ get_or (hex_text upper v) j 0 }
{
    let n = hex_count(v);
    if n <= j {
        return 0;
    }
    let mut w = v;
    for _ in j + 1..n {
        w = w / 16;
    }
    digit_of(upper, w % 16)
}

#[tactic(auto, unfolding(crate::specs::Number::size_text))]
fn size_byte(size: u64, j: usize) -> u8
    ensures { result ≡ get_or (size_text size) j 0 }
{
    if size < 10 {
        if j == 0 {
            return b'0' + size as u8;
        }
        return 0;
    }
    if j == 0 {
        return b'0';
    }
    if j == 1 {
        return b'x';
    }
    hex_byte(false, size, j - 2)
}

#[tactic(auto, unfolding(crate::specs::Number::num_text, crate::specs::Number::sign))]
pub fn num_byte(negative: bool, size: u64, j: usize) -> u8
    ensures { result ≡ get_or (num_text negative size) j 0 }
{
    if negative {
        if j == 0 {
            return b'-';
        }
        return size_byte(size, j - 1);
    }
    size_byte(size, j)
}

// A prefix and upper-case hex.
pub fn prefixed_byte(prefix: &[u8], v: u64, j: usize) -> u8
    ensures { result ≡ get_or (prefix.now ++ hex_text true v) j 0 }
{
    let n = prefix.len();
    if j < n {
        return prefix[j];
    }
    hex_byte(true, v, j - n)
}

// The hex digits of b and the brace behind them.
fn closed_byte(b: u8, j: usize) -> u8
    ensures { result ≡ get_or (hex_text false b ++ ascii "}") j 0 }
{
    let n = hex_count(b as u64);
    if j < n {
        return hex_byte(false, b as u64, j);
    }
    if j == n {
        return b'}';
    }
    0
}

// \u{..} around the hex digits of b.
#[tactic(auto, unfolding(crate::specs::Literal::code_text))]
fn code_byte(b: u8, j: usize) -> u8
    ensures { result ≡ get_or (code_text b) j 0 }
{
    match j {
        0 => b'\\',
        1 => b'u',
        2 => b'{',
        _ => closed_byte(b, j - 3),
    }
}

// A backslash and a letter.
fn pair_byte(letter: u8, j: usize) -> u8
    ensures { result ≡ get_or (92 ∷ letter ∷ []) j 0 }
{
    match j {
        0 => b'\\',
        1 => letter,
        _ => 0,
    }
}

// The spelling of b.
#[tactic(auto, unfolding(crate::specs::Literal::escape, crate::specs::Literal::unseen))]
fn escape_byte(b: u8, j: usize) -> u8
    ensures { result ≡ get_or (escape b) j 0 }
{
    match b {
        0 => pair_byte(b'0', j),
        b'\t' => pair_byte(b't', j),
        b'\r' => pair_byte(b'r', j),
        b'\n' => pair_byte(b'n', j),
        b'\'' | b'"' | b'\\' => pair_byte(b, j),
        0..=0x1f | 0x7f => code_byte(b, j),
        _ => if j == 0 { b } else { 0 },
    }
}

fn quote_byte(j: usize) -> u8
    ensures { result ≡ get_or (ascii "\"") j 0 }
{
    if j == 0 { b'"' } else { 0 }
}

#[tactic(auto, unfolding(crate::specs::Literal::opening))]
fn opening_byte(wide: bool, j: usize) -> u8
    ensures { result ≡ get_or (opening wide) j 0 }
{
    if wide {
        if j == 0 {
            return b'L';
        }
        return quote_byte(j - 1);
    }
    quote_byte(j)
}

#[tactic(auto, unfolding(crate::specs::Literal::closing))]
fn closing_byte(longer: bool, j: usize) -> u8
    ensures { result ≡ get_or (closing longer) j 0 }
{
    if !longer {
        return quote_byte(j);
    }
    match j {
        0 => 0xe2,
        1 => 0x80,
        2 => 0xa6,
        _ => quote_byte(j - 3),
    }
}

// The spellings of the first 80 bytes and what closes a literal; k counts from the spelling of byte i on.
fn inside_byte(s: &[u8], j: usize) -> u8
    ensures { result ≡ get_or (escapes (take 80 s.now) ++ closing (ltb 80 (length s.now))) j 0 }
{
    let n = s.len().min(80);
    let mut k = j;
    for &b in &s[..n] {
        let m = escape_length(b);
        if k < m {
            return escape_byte(b, k);
        }
        k -= m;
    }
    closing_byte(80 < s.len(), k)
}

#[tactic(auto, unfolding(crate::specs::Literal::literal_text))]
pub fn literal_byte(wide: bool, s: &[u8], j: usize) -> u8
    ensures { result ≡ get_or (literal_text wide s.now) j 0 }
{
    let n = opening_length(wide);
    if j < n {
        return opening_byte(wide, j);
    }
    inside_byte(s, j - n)
}
