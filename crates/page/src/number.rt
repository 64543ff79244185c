// A line of a word and a number.
ghost use Rattle.std.specs.Prelude.{◌≡◌, ◌≤◌, ℕ, length, take};
ghost use Rattle.lists.specs.Put.{put};
ghost use Rattle.page.specs.Page.{numbered, refusal, output_by};

use lists::stores::{put_slice, store};
use text::decimal::put_decimal;

// A line of a word and a number; answers where it ends.
pub fn put_numbered(out: &mut [u8], word: &[u8], n: u16) -> usize
    requires { length word.now ≤ 6 }
    ensures end { (result ≡ length (numbered word.now n)) × (result ≤ 12) }
    ensures text { out.new ≡ put 0 (numbered word.now n) out.old }
{
    let w = put_slice(out, word);
    let end = put_decimal(out, w, n);
    store(out, end, b'\n');
    end + 1
}

// `no` and the number that n becomes: a question has one, and a byte is its own.
pub fn put_refusal<N: Into<u8>>(out: &mut [u8], n: N) -> usize
    ensures short { result ≤ 10 }
    ensures text { (value : N → ℕ) → ((x : N) (k : ℕ) → N.converts x k → k ≡ value x) → (result ≡ length (refusal (value n))) × (out.new ≡ put 0 (refusal (value n)) out.old) }
{
    let k: u8 = n.into();
    put_numbered(out, b"no ", k.into())
}

// What is printed of a call that stores bytes from the start of the list on: these, or `no` and the number; answers how many bytes that is.
pub fn put_stored<E: Into<u8>>(out: &mut [u8], answer: Result<usize, E>) -> usize
    requires { 10 ≤ length out.old }
    ensures { (value : E → ℕ) → ((x : E) (k : ℕ) → E.converts x k → k ≡ value x) → take result out.new ≡ output_by value answer out.old }
{
    match answer {
        Ok(n) => n,
        Err(e) => put_refusal(out, e),
    }
}
