// The bytes that are set for a call: the search back over the earlier lines of its block, and the literal found there.
ghost use Rattle.std.specs.Prelude.{◌≡◌, ◌≤◌, length, IfSome};
ghost use Rattle.tokens.specs.Token.{token};
ghost use Rattle.rows.specs.Rows.{row_at};
ghost use Rattle.commands.specs.Literals.{string_of};
ghost use Rattle.commands.specs.Calls.{given};
ghost use Rattle.commands.specs.Table.{line_before, bytes_for};
ghost use Rattle.commands.specs.Making.{Gives};

use crate::lines::{begins_with, is_call, kind_of, text_of};
use lists::reads::element_or;
use rows::listing::Listing;
use strings::reading::read_literal;

// The line that sets the register for the call on line k.
#[tactic(auto, using(crate::proofs::Search::search_start, crate::proofs::Search::search_end, crate::proofs::Search::search_other, crate::proofs::Search::search_call, crate::proofs::Search::search_found, crate::proofs::Search::search_further))]
fn line_before(l: &Listing<'_>, register: &[u8], k: usize) -> Option<usize>
    ensures { result ≡ line_before l.now register.now (row_at l.now k).place k }
{
    let p = element_or(l.places, k, 0);
    for j in (0..k).rev() {
        if element_or(l.places, j, 0) == p {
            if is_call(l, j) {
                return None;
            }
            if begins_with(l, register, j) {
                return Some(j);
            }
        }
    }
    None
}

// How many bytes the string has whose literal a token is, from the start of `out` on; none if it is no literal or a cut one.
fn read_string(kind: u8, text: &[u8], out: &mut [u8]) -> Option<usize>
    requires { 80 ≤ length out.old }
    ensures { Gives result out.new (string_of (token kind text.now)) }
{
    match read_literal(kind, text, out) {
        Ok(v) => {
            if v.cut {
                return None;
            }
            Some(v.count)
        }
        Err(_) => None,
    }
}

// How many bytes line i sets its first token to, from the start of `out` on.
fn set_by(l: &Listing<'_>, i: usize, out: &mut [u8]) -> Option<usize>
    requires { 80 ≤ length out.old }
    ensures { Gives result out.new (given (row_at l.now i)) }
{
    if text_of(l, i, 1) == b" = ".as_slice() {
        return read_string(kind_of(l, i, 2), text_of(l, i, 2), out);
    }
    None
}

// How many bytes are set for the call on line k, from the start of `out` on.
pub fn bytes_for(l: &Listing<'_>, register: &[u8], k: usize, out: &mut [u8]) -> Option<usize>
    requires { 80 ≤ length out.old }
    ensures gives { Gives result out.new (bytes_for l.now register.now k) }
    ensures few { IfSome result (λ n. n ≤ 80) }
{
    let i = line_before(l, register, k)?;
    set_by(l, i, out)
}
