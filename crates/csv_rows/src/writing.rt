// A listing's lists as rows: each row's fields one behind the other, and the call.
ghost use Rattle.std.specs.Prelude.{◌≡◌, ◌+◌, ◌≤◌, length};
ghost use Rattle.lists.specs.Put.{put};
ghost use Rattle.tokens.specs.Lines.{between};
ghost use Rattle.csv_rows.specs.Called.{Writes};
ghost use Rattle.csv_rows.specs.Writing.{Wrote, tokens_from, line_text, rows_from};

use crate::fields::{put_head, put_token};
use crate::held::{end_at, lists_hold};
use crate::sizing::file_size;
use lists::parts::part;
use lists::question::Question;
use lists::reads::{element_or, u8_at};
use lists::stores::store;
use rows::answer::Sizes;
use rows::listing::Listing;

// The text from x up to y.
pub fn text_between(text: &[u8], x: usize, y: usize) -> &[u8]
    ensures { result.now ≡ between x y text.now }
{
    part(text, x, y.saturating_sub(x))
}

// The tokens from n up to m.
fn put_tokens(out: &mut [u8], at: usize, l: &Listing<'_>, n: usize, m: usize) -> usize
    requires { at + length (tokens_from l.now.text l.now.ends l.now.kinds m n) ≤ length out.old }
    ensures { Wrote at (tokens_from l.now.text l.now.ends l.now.kinds m n) out.old out.new result }
{
    let mut p = at;
    let mut x = end_at(l.ends, n);
    for j in n..m {
        let y = end_at(l.ends, j + 1);
        p = put_token(out, p, u8_at(l.kinds, j), text_between(l.text, x, y));
        x = y;
    }
    p
}

// A row behind its first fields: the tokens from n up to m, and CR LF.
#[tactic(auto, using(crate::proofs::Rows::line_length))]
fn put_line(out: &mut [u8], at: usize, l: &Listing<'_>, n: usize, m: usize) -> usize
    requires { at + length (line_text l.now.text l.now.ends l.now.kinds m n) ≤ length out.old }
    ensures { Wrote at (line_text l.now.text l.now.ends l.now.kinds m n) out.old out.new result }
{
    let p = put_tokens(out, at, l, n, m);
    store(out, p, b'\r');
    store(out, p + 1, b'\n');
    p + 2
}

// The first m rows.
fn put_rows(out: &mut [u8], l: &Listing<'_>, m: usize)
    requires { length (rows_from l.now m 0) ≤ length out.old }
    ensures { out.new ≡ put 0 (rows_from l.now m 0) out.old }
{
    let mut p: usize = 0;
    let mut n: usize = 0;
    for i in 0..m {
        let e = end_at(l.lines, i + 1);
        let mark = element_or(l.marks, i, 0);
        let address = element_or(l.addresses, i, 0);
        let place = element_or(l.places, i, 0);
        let q = put_head(out, p, mark, address, place);
        p = put_line(out, q, l, n, e);
        n = e;
    }
}

// The file of the rows that lists hold, from the start of `out` on, and its size. Lists that hold no rows are Question::Rows, a file that is
// longer than `out` is Question::TextRoom; then nothing is changed.
pub fn write_rows(l: &Listing<'_>, sizes: Sizes, out: &mut [u8]) -> Result<usize, Question>
    ensures { Writes l.now sizes out.old out.new result }
{
    if !lists_hold(l, sizes) {
        return Err(Question::Rows);
    }
    l.numbers_fit();
    let n = file_size(l.text, l.marks, l.places, sizes);
    if out.len() < n {
        return Err(Question::TextRoom);
    }
    put_rows(out, l, sizes.lines);
    Ok(n)
}
