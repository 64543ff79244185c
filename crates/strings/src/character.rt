// The character that a text begins with. The one byte that it can be is read off it, and that byte's spelling compared with what stands
// there: so no spelling is accepted that the listing would not write.
ghost use Rattle.std.specs.Prelude.{◌≡◌, true, ◌<◌};
ghost use Rattle.strings.specs.Reading.{hex_value, code_of, escaped_of, guess_of, Spelt};

use lists::parts::part;
use lists::reads::u8_at;
use text::literal::put_escape;

// A byte, and how many bytes its spelling has.
#[derive(Clone, Copy)]
pub struct Character {
    pub byte: u8,
    pub size: usize,
}

// The value of a lower hex digit: digits stand from 48 on, letters from 97 on.
fn hex_value(c: u8) -> u8
    ensures { (result ≡ hex_value c) × (result < 64) }
{
    c % 16 + c / 64 * 9
}

// The code of two hex digits, or of one where the brace follows it. The first of two is never a letter.
fn code_of(a: u8, b: u8) -> u8
    ensures { result ≡ code_of a b }
{
    if b == b'}' {
        return hex_value(a);
    }
    a % 16 * 16 + hex_value(b) % 16
}

// The byte that a backslash and c stand for; a and b stand where the digits of a code do.
fn escaped(c: u8, a: u8, b: u8) -> u8
    ensures { result ≡ escaped_of c a b }
{
    match c {
        b'0' => 0,
        b't' => 9,
        b'r' => 13,
        b'n' => 10,
        b'u' => code_of(a, b),
        _ => c,
    }
}

// The byte whose spelling a text begins with, if it begins with one.
fn guess(t: &[u8]) -> u8
    ensures { result ≡ guess_of t.now }
{
    let c = u8_at(t, 0);
    if c == b'\\' {
        return escaped(u8_at(t, 1), u8_at(t, 3), u8_at(t, 4));
    }
    c
}

// Whether two texts are the same. Element by element: with `==` a literal took a tenth to a third longer.
fn is_same(a: &[u8], b: &[u8]) -> bool
    ensures { (result ≡ true → a.now ≡ b.now) × (a.now ≡ b.now → result ≡ true) }
{
    a.len() == b.len() && a.iter().zip(b).all(|(x, y)| x == y)
}

// The first character of a text, if it begins with one. Inlined: handed back through memory it cost a literal a quarter of its time.
#[inline(always)]
pub fn first(t: &[u8]) -> Option<Character>
    ensures { Spelt t.now result }
{
    let b = guess(t);
    let mut w = [0u8; 6];
    let n = put_escape(&mut w, b);
    if b < 0x80 {
        if is_same(part(t, 0, n), part(&w, 0, n)) {
            return Some(Character { byte: b, size: n });
        }
    }
    None
}
