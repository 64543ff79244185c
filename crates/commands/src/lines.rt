// A line's tokens, and what the line is: a call line, a call by a name, a line that begins with a register.
ghost use Rattle.std.specs.Prelude.{◌≡◌};
ghost use Rattle.rows.specs.Rows.{row_at};
ghost use Rattle.commands.specs.Calls.{token_of, is_call, calls_to, begins_with};

use csv_rows::held::end_at;
use csv_rows::writing::text_between;
use lists::parts::part;
use lists::reads::{element_or, u8_at};
use rows::listing::Listing;

// The kind of token k of line i; 0 if the line has no such token: no `Option`, since the token that stands for none has kind 0 and no text.
pub fn kind_of(l: &Listing<'_>, i: usize, k: usize) -> u8
    ensures { result ≡ (token_of (row_at l.now i) k).kind }
{
    let n = end_at(l.lines, i);
    let e = element_or(l.lines, i, 0) as usize;
    if k < e.saturating_sub(n) {
        return u8_at(l.kinds, n + k);
    }
    0
}

// The text of token k of line i; empty if the line has no such token.
pub fn text_of<'a>(l: &Listing<'a>, i: usize, k: usize) -> &'a [u8]
    ensures { result.now ≡ (token_of (row_at l.now i) k).bytes }
{
    let n = end_at(l.lines, i);
    let e = element_or(l.lines, i, 0) as usize;
    if k < e.saturating_sub(n) {
        let j = n + k;
        return text_between(l.text, end_at(l.ends, j), end_at(l.ends, j + 1));
    }
    part(l.text, 0, 0)
}

// Whether line i is a call line.
#[tactic(auto, using(crate::proofs::Asked::other_kinds))]
pub fn is_call(l: &Listing<'_>, i: usize) -> bool
    ensures { result ≡ is_call (row_at l.now i) }
{
    if element_or(l.marks, i, 0) < 256 {
        return false;
    }
    if (kind_of(l, i, 0) == 1) & (kind_of(l, i, 3) == 6) {
        return (text_of(l, i, 1) == b" = ".as_slice()) & (u8_at(text_of(l, i, 3), 0) == b'(');
    }
    false
}

// Whether line i is a call line by this name.
#[tactic(auto, using(crate::proofs::Asked::calls_told, crate::proofs::Asked::calls_none, crate::proofs::Same::same_pointwise))]
pub fn calls_to(l: &Listing<'_>, call: &[u8], i: usize) -> bool
    ensures { result ≡ calls_to call.now (row_at l.now i) }
{
    if is_call(l, i) {
        return text_of(l, i, 2) == call;
    }
    false
}

// Whether line i begins with this register.
#[tactic(auto, using(crate::proofs::Asked::begins_told, crate::proofs::Asked::begins_none, crate::proofs::Same::same_pointwise))]
pub fn begins_with(l: &Listing<'_>, register: &[u8], i: usize) -> bool
    ensures { result ≡ begins_with register.now (row_at l.now i) }
{
    if kind_of(l, i, 0) == 1 {
        return text_of(l, i, 0) == register;
    }
    false
}
