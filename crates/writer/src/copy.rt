// Bytes copied into a lent list that has room for them: by eights, and what is left by a four, a two and a one, as the bits of their count say.
ghost use Rattle.std.specs.Prelude.{◌≡◌, ◌+◌, ◌%◌, ◌≤◌, ◌<◌, length, take, drop};
ghost use Rattle.lists.specs.Put.{put};
ghost use Rattle.writer.specs.Copy.{left};

// Three sizes, not one function over a const N by `copy_from_slice`: tried, and the proof did not close.

// Two bytes of s, read before the first is stored.
fn copy_two(out: &mut [u8], to: usize, s: &[u8], from: usize)
    requires { (to + 2 ≤ length out.old) × (from + 2 ≤ length s.now) }
    ensures { out.new ≡ put to (take 2 (drop from s.now)) out.old }
{
    let a = s[from];
    let b = s[from + 1];
    out[to] = a;
    out[to + 1] = b;
}

// Four bytes of s, read before the first is stored.
fn copy_four(out: &mut [u8], to: usize, s: &[u8], from: usize)
    requires { (to + 4 ≤ length out.old) × (from + 4 ≤ length s.now) }
    ensures { out.new ≡ put to (take 4 (drop from s.now)) out.old }
{
    let a = s[from];
    let b = s[from + 1];
    let c = s[from + 2];
    let d = s[from + 3];
    out[to] = a;
    out[to + 1] = b;
    out[to + 2] = c;
    out[to + 3] = d;
}

// Eight bytes of s, read before the first is stored.
fn copy_eight(out: &mut [u8], to: usize, s: &[u8], from: usize)
    requires { (to + 8 ≤ length out.old) × (from + 8 ≤ length s.now) }
    ensures { out.new ≡ put to (take 8 (drop from s.now)) out.old }
{
    let a = s[from];
    let b = s[from + 1];
    let c = s[from + 2];
    let d = s[from + 3];
    let e = s[from + 4];
    let f = s[from + 5];
    let g = s[from + 6];
    let h = s[from + 7];
    out[to] = a;
    out[to + 1] = b;
    out[to + 2] = c;
    out[to + 3] = d;
    out[to + 4] = e;
    out[to + 5] = f;
    out[to + 6] = g;
    out[to + 7] = h;
}

// The n bytes of s from a place on, as many eights as they have; answers how many bytes that are.
fn copy_eights(out: &mut [u8], s: &[u8], at: usize, n: usize) -> usize
    requires { (at + n ≤ length s.now) × (n ≤ length out.old) × (n < 65536) }
    ensures count { (result ≤ n) × (n < result + 8) × (result % 8 ≡ 0) }
    ensures text { put result (left s.now at n result) out.new ≡ put 0 (left s.now at n 0) out.old }
{
    let mut i = 0;
    while i + 8 <= n {
        copy_eight(out, i, s, at + i);
        i += 8;
    }
    i
}

// The next four of them, if so many are left.
fn copy_fours(out: &mut [u8], s: &[u8], at: usize, n: usize, i: usize) -> usize
    requires { (at + n ≤ length s.now) × (n ≤ length out.old) × (i ≤ n) × (n < i + 8) × (i % 8 ≡ 0) }
    ensures count { (result ≤ n) × (n < result + 4) × (result % 4 ≡ 0) }
    ensures text { put result (left s.now at n result) out.new ≡ put i (left s.now at n i) out.old }
{
    if n / 4 % 2 == 1 {
        copy_four(out, i, s, at + i);
        return i + 4;
    }
    i
}

// The next two.
fn copy_twos(out: &mut [u8], s: &[u8], at: usize, n: usize, i: usize) -> usize
    requires { (at + n ≤ length s.now) × (n ≤ length out.old) × (i ≤ n) × (n < i + 4) × (i % 4 ≡ 0) }
    ensures count { (result ≤ n) × (n < result + 2) × (result % 2 ≡ 0) }
    ensures text { put result (left s.now at n result) out.new ≡ put i (left s.now at n i) out.old }
{
    if n / 2 % 2 == 1 {
        copy_two(out, i, s, at + i);
        return i + 2;
    }
    i
}

// The last.
fn copy_last(out: &mut [u8], s: &[u8], at: usize, n: usize, i: usize)
    requires { (at + n ≤ length s.now) × (n ≤ length out.old) × (i ≤ n) × (n < i + 2) × (i % 2 ≡ 0) }
    ensures { out.new ≡ put i (left s.now at n i) out.old }
{
    if n % 2 == 1 {
        out[i] = s[at + i];
    }
}

// The n bytes of s from a place on, at the start of the list; answers n.
pub fn copy_bytes(out: &mut [u8], s: &[u8], at: usize, n: usize) -> usize
    requires { (at + n ≤ length s.now) × (n ≤ length out.old) × (n < 65536) }
    ensures count { result ≡ n }
    ensures text { out.new ≡ put 0 (take n (drop at s.now)) out.old }
{
    let i = copy_eights(out, s, at, n);
    let j = copy_fours(out, s, at, n, i);
    let k = copy_twos(out, s, at, n, j);
    copy_last(out, s, at, n, k);
    n
}
