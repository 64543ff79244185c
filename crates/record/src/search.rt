// A search among u64 numbers, as block starts and atlas addresses: one after the other, and by halving among numbers that rise.
ghost use Rattle.std.specs.Prelude.{◌≡◌, ◌*◌, ◌≤◌, length};
ghost use Rattle.record.specs.Search.{number_at, Rises, find_from};

use lists::reads::{plain_u64, u64_at};

fn number_at(numbers: &[u8], k: u16) -> u64
    ensures { result ≡ number_at numbers.now k }
{
    u64_at(numbers, 8 * k as usize)
}

// The first of the numbers that is x, where all of them are there. Kept for speed: no test of the length stands between the reads.
#[tactic(auto, using(crate::proofs::SearchLaws::find_here, crate::proofs::SearchLaws::find_next, crate::proofs::SearchLaws::find_none))]
fn plain_first(numbers: &[u8], count: u16, x: u64) -> Option<u16>
    requires { 8 * count ≤ length numbers.now }
    ensures { result ≡ find_from numbers.now x 0 count }
{
    let n = count as usize;
    for k in 0..n {
        if plain_u64(numbers, 8 * k) == x {
            return Some(k as u16);
        }
    }
    None
}

// The first of the numbers that is x, one after the other.
#[tactic(auto, using(crate::proofs::SearchLaws::find_here, crate::proofs::SearchLaws::find_next, crate::proofs::SearchLaws::find_none))]
pub fn first_of(numbers: &[u8], count: u16, x: u64) -> Option<u16>
    ensures { result ≡ find_from numbers.now x 0 count }
{
    if 8 * count as usize <= numbers.len() {
        return plain_first(numbers, count, x);
    }
    for k in 0..count {
        if number_at(numbers, k) == x {
            return Some(k);
        }
    }
    None
}

// By halving, where all numbers are there: those below `low` are smaller than x, those from `high` on greater. No
// counted loop: what is left is halved.
fn plain_search(numbers: &[u8], count: u16, x: u64) -> Option<u16>
    requires rises { Rises (number_at numbers.now) count }
    requires there { 8 * count ≤ length numbers.now }
    ensures { result ≡ find_from numbers.now x 0 count }
{
    let mut low: usize = 0;
    let mut high = count as usize;
    while low < high {
        let mid = low + (high - low) / 2;
        let a = plain_u64(numbers, 8 * mid);
        if a == x {
            return Some(mid as u16);
        }
        if a < x {
            low = mid + 1;
        } else {
            high = mid;
        }
    }
    None
}

// The one of the first `count` numbers that is x.
pub fn search(numbers: &[u8], count: u16, x: u64) -> Option<u16>
    requires { Rises (number_at numbers.now) count }
    ensures { result ≡ find_from numbers.now x 0 count }
{
    if 8 * count as usize <= numbers.len() {
        return plain_search(numbers, count, x);
    }
    first_of(numbers, count, x)
}
