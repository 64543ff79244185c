// Replays stored calls: a corpus of records with the Rust's answers, read from standard input. docs/COMPARISON.md has its format.
#![tactic(auto)]

ghost use Rattle.std.specs.Prelude.{◌≡◌, ◌<◌, ◌≤◌, ℕ, length, map};
ghost use Rattle.replay.specs.Sum.{turn, sum_from, wide_from};

use lists::parts::{from as part_from, part};
use lists::question::Question;
use lists::reads::{u32_at, u64_at};
use pseudo::call::list;
use rows::answer::Sizes;
use rows::listing::Listing;
use std::io::Read;

// One number more in a sum.
fn next(h: u64, x: u64) -> u64
    requires h_bound { h < 4294967311 }
    requires x_bound { x < 4294967296 }
    ensures { (result ≡ turn h x) × (result < 4294967311) }
{
    (1000003 * h + x) % 4294967311
}

// The sum of a list's numbers.
fn sum<T: Copy + Into<u32>>(s: &[T]) -> u64
    ensures { (value : T → ℕ) → ((x : T) (n : ℕ) → T.converts x n → n ≡ value x) → result ≡ sum_from 1 (map value s.now) }
{
    let mut h: u64 = 1;
    for &x in s {
        let n: u32 = x.into();
        h = next(h, n.into());
    }
    h
}

// The sum of a list of 64-bit numbers, each as its low half and its high half.
fn sum_u64(s: &[u64]) -> u64
    ensures { result ≡ wide_from 1 s.now }
{
    let mut h: u64 = 1;
    for &x in s {
        h = next(next(h, x % 4294967296), x / 4294967296);
    }
    h
}

// A number of a case, of four bytes.
fn field(case: &[u8], at: usize) -> usize
    ensures { result < 4294967296 }
{
    u32_at(case, at) as usize
}

// The number of the answer and the sizes that the case has.
fn answers(case: &[u8], answer: Result<Sizes, Question>) -> bool {
    let (no, text, tokens, lines) = match answer {
        Ok(z) => (0, z.text, z.tokens, z.lines),
        Err(q) => (u8::from(q), 0, 0, 0),
    };
    (field(case, 32) == usize::from(no))
        & (field(case, 36) == text)
        & (field(case, 40) == tokens)
        & (field(case, 44) == lines)
}

// The sums of the lists after the call.
fn sums(case: &[u8], l: &Listing<'_>) -> bool {
    (u64_at(case, 64) == sum(l.text))
        & (u64_at(case, 72) == sum(l.ends))
        & (u64_at(case, 80) == sum(l.kinds))
        & (u64_at(case, 88) == sum_u64(l.addresses))
        & (u64_at(case, 96) == sum(l.marks))
        & (u64_at(case, 104) == sum(l.places))
        & (u64_at(case, 112) == sum(l.lines))
}

// Makes the call of a case on lists of the lengths that it has, and compares what it answers and leaves.
// Seven lists are seven parameters where they are filled: of a struct of seven `&mut` lists the proof did not close.
fn replay(
    case: &[u8],
    text: &mut [u8],
    ends: &mut [u32],
    kinds: &mut [u8],
    addresses: &mut [u64],
    marks: &mut [u16],
    places: &mut [u16],
    lines: &mut [u32],
) -> bool {
    let rec = part(case, 120, field(case, 0));
    let listed = list(
        rec,
        u64_at(case, 48) as usize,
        u64_at(case, 56) as usize,
        text,
        ends,
        kinds,
        addresses,
        marks,
        places,
        lines,
    );
    let left = Listing {
        text,
        ends,
        kinds,
        addresses,
        marks,
        places,
        lines,
    };
    answers(case, listed.answer) & sums(case, &left)
}

// The lists as long as the case says.
fn replay_lists(
    case: &[u8],
    text: &mut [u8],
    ends: &mut [u32],
    kinds: &mut [u8],
    addresses: &mut [u64],
    marks: &mut [u16],
    places: &mut [u16],
    lines: &mut [u32],
) -> bool {
    let x = field(case, 4).min(text.len());
    let e = field(case, 8).min(ends.len());
    let k = field(case, 12).min(kinds.len());
    let a = field(case, 16).min(addresses.len());
    let m = field(case, 20).min(marks.len());
    let p = field(case, 24).min(places.len());
    let l = field(case, 28).min(lines.len());
    replay(
        case,
        &mut text[..x],
        &mut ends[..e],
        &mut kinds[..k],
        &mut addresses[..a],
        &mut marks[..m],
        &mut places[..p],
        &mut lines[..l],
    )
}

// Seven lists as long as the program `listing` has them, every byte 0xee.
// No heap: what it fills are arrays.
fn replay_case(case: &[u8]) -> bool {
    let mut text = [0xeeu8; 65536];
    let mut ends = [0xeeee_eeeeu32; 16384];
    let mut kinds = [0xeeu8; 16384];
    let mut addresses = [0xeeee_eeee_eeee_eeeeu64; 900];
    let mut marks = [0xeeeeu16; 900];
    let mut places = [0xeeeeu16; 900];
    let mut lines = [0xeeee_eeeeu32; 900];
    replay_lists(
        case,
        &mut text,
        &mut ends,
        &mut kinds,
        &mut addresses,
        &mut marks,
        &mut places,
        &mut lines,
    )
}

// 1 if a case is not answered as it was.
fn differs(case: &[u8]) -> u64
    ensures { result < 2 }
{
    u64::from(!replay_case(case))
}

fn show(rt: &impl Print, n: u64, what: &[u8]) {
    let _ = rt.print(n);
    let _ = rt.write_all(what);
}

// Each case in turn; a case begins where the record of the one before it ends.
fn replay_all(rt: &impl Print, corpus: &[u8]) {
    let count = u32_at(corpus, 0) as u64;
    let mut at: usize = 4;
    let mut differ: u64 = 0;
    for _n in 0..count {
        let case = part_from(corpus, at);
        differ += differs(case);
        at = at.min(1000000) + 120 + field(case, 0);
    }
    show(rt, count, b" replayed, ");
    show(rt, differ, b" differ\n");
}

// Reads until the list is full, the input ends or a read fails; answers how many bytes that is.
// It is not stdio's `read_input`, which does not tell how many bytes came before a read failed.
fn read_full(from: &mut impl Read, list: &mut [u8]) -> usize
    ensures { result ≤ length list.old }
{
    let mut n = 0;
    while n < list.len() {
        match from.read(&mut list[n..]) {
            Ok(0) | Err(_) => return n,
            Ok(more) => n += more,
        }
    }
    n
}

// No heap: what it fills are arrays.
fn main(rt: HostRuntime) {
    let mut space = [0u8; 400000];
    let n = read_full(&mut rt.stdin(), &mut space);
    replay_all(&rt, part(&space, 0, n));
}
