// Bodies as rows and columns. Each column is stored from its first byte to its last, so that the stores run through the list once.
ghost use Rattle.std.specs.Prelude.{◌≡◌, ◌++◌, ◌+◌, ◌*◌, ◌≤◌, ◌<◌, length, take, drop, get_or};
ghost use Rattle.lists.specs.Entries.{tab};
ghost use Rattle.lists.specs.Put.{put};
ghost use Rattle.columns.specs.Columns.{transposed};

use lists::parts::{from, part};
use lists::stores::put_slice;

// A column of m rows: every n-th byte from `first` on, stored from `to` on.
// It stays by index: `skip`, `step_by` and `zip` over the two lists are no plainer.
fn put_column(out: &mut [u8], s: &[u8], to: usize, first: usize, m: usize, n: usize)
    requires { (to + m ≤ length out.old) × (first + m * n < length s.now + n) × (length s.now + n < 1_000_000) }
    ensures { out.new ≡ put to (tab (λ i. get_or s.now (first + i * n) 0) 0 m) out.old }
{
    let mut from = first;
    for i in 0..m {
        out[to + i] = s[from];
        from += n;
    }
}

// The m rows of n bytes that begin at an offset, by columns, at the same offset.
fn put_columns(out: &mut [u8], s: &[u8], at: usize, m: usize, n: usize)
    requires { (at + n * m ≤ length s.now) × (length s.now ≤ length out.old) × (length s.now + n < 1_000_000) }
    ensures { out.new ≡ put at (transposed m n (drop at s.now)) out.old }
{
    let mut to = at;
    for j in 0..n {
        put_column(out, s, to, at + j, m, n);
        to += m;
    }
}

// The bytes of s with those m rows by columns and all else in place.
pub fn put_rearranged(out: &mut [u8], s: &[u8], at: usize, m: usize, n: usize)
    requires { (at + n * m ≤ length s.now) × (length s.now ≤ length out.old) × (length s.now + n < 1_000_000) }
    ensures { out.new ≡ put 0 (take at s.now ++ (transposed m n (drop at s.now) ++ drop (at + n * m) s.now)) out.old }
{
    put_slice(out, part(s, 0, at));
    put_columns(out, s, at, m, n);
    let end = at + n * m;
    put_slice(&mut out[end..], from(s, end));
}
