// How long the text of a number or of a string's literal is, with nothing stored.
ghost use Rattle.std.specs.Prelude.{◌≡◌, ◌≤◌, length, take};
ghost use Rattle.text.specs.Number.{size_text, num_text};
ghost use Rattle.text.specs.Literal.{code_text, letter_or, escape, escapes, opening, closing, literal_text};

use crate::number::hex_count;

#[tactic(auto, unfolding(crate::specs::Number::size_text))]
fn size_length(size: u64) -> usize
    ensures { (result ≡ length (size_text size)) × (result ≤ 18) }
{
    if size < 10 {
        return 1;
    }
    2 + hex_count(size)
}

#[tactic(auto, unfolding(crate::specs::Number::num_text, crate::specs::Number::sign))]
pub fn num_length(negative: bool, size: u64) -> usize
    ensures { (result ≡ length (num_text negative size)) × (result ≤ 19) }
{
    if negative {
        return 1 + size_length(size);
    }
    size_length(size)
}

// The spelling of a byte: of most the byte itself.
#[tactic(auto, unfolding(crate::specs::Literal::escape, crate::specs::Literal::unseen, crate::specs::Literal::code_text))]
pub fn escape_length(b: u8) -> usize
    ensures { (result ≡ length (escape b)) × (result ≤ 6) }
{
    match b {
        0 | b'\t' | b'\r' | b'\n' | b'\'' | b'"' | b'\\' => 2,
        0..=0x1f | 0x7f => 4 + hex_count(b as u64),
        _ => 1,
    }
}

// The spellings of the first 80 bytes.
fn escapes_length(s: &[u8]) -> usize
    ensures { (result ≡ length (escapes (take 80 s.now))) × (result ≤ 480) }
{
    let n = s.len().min(80);
    let mut sum: usize = 0;
    for &b in &s[..n] {
        sum += escape_length(b);
    }
    sum
}

#[tactic(auto, unfolding(crate::specs::Literal::opening))]
pub fn opening_length(wide: bool) -> usize
    ensures { (result ≡ length (opening wide)) × (result ≤ 2) }
{
    if wide { 2 } else { 1 }
}

#[tactic(auto, unfolding(crate::specs::Literal::closing))]
fn closing_length(longer: bool) -> usize
    ensures { (result ≡ length (closing longer)) × (result ≤ 4) }
{
    if longer { 4 } else { 1 }
}

#[tactic(auto, unfolding(crate::specs::Literal::literal_text))]
pub fn literal_length(wide: bool, s: &[u8]) -> usize
    ensures { (result ≡ length (literal_text wide s.now)) × (result ≤ 486) }
{
    opening_length(wide) + escapes_length(s) + closing_length(80 < s.len())
}
