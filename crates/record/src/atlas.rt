// The atlas and the spans: readers over the part of the record that begins at their array, and questions 9 and 10.
ghost use Rattle.std.specs.Prelude.{◌≡◌, ◌&&◌, ◌*◌, ◌<◌, ◌≤◌, length, ltb, leb};
ghost use Rattle.lists.specs.Bytes.{u8_at};
ghost use Rattle.lists.specs.Choice.{all_below};
ghost use Rattle.record.specs.Atlas.{entry_address, entry_kind, entry_length, text_start, entry_kind_ok, text_byte_ok, text_ok, entries_ok, texts_ok, atlas_ok, span_first, span_last, spans_ok};

use lists::parts::from;
use lists::reads::{u8_at, u64_at};

pub fn entry_address(entries: &[u8], k: u16) -> u64
    ensures { result ≡ entry_address entries.now k }
{
    u64_at(entries, 8 * k as usize)
}

pub fn entry_kind(pairs: &[u8], k: u16) -> u8
    ensures { result ≡ entry_kind pairs.now k }
{
    u8_at(pairs, 2 * k as usize)
}

pub fn entry_length(pairs: &[u8], k: u16) -> u8
    ensures { (result ≡ entry_length pairs.now k) × (result < 256) }
{
    u8_at(pairs, 2 * k as usize + 1)
}

fn entry_kind_ok(kind: u8) -> bool
    ensures { result ≡ entry_kind_ok kind }
{
    (1 <= kind) & (kind <= 3)
}

// Addresses rise and kinds are 1 to 3; `before` is the address of the entry before, at first the first one's.
#[tactic(auto, unfolding(crate::specs::Atlas::entries_ok))]
fn entries_ok(entries: &[u8], pairs: &[u8], atlas: u16) -> bool
    ensures { result ≡ entries_ok entries.now pairs.now atlas }
{
    let mut before = entry_address(entries, 0);
    let mut ok = true;
    for k in 0..atlas {
        let a = entry_address(entries, k);
        ok = ok & (((k == 0) | (before < a)) & entry_kind_ok(entry_kind(pairs, k)));
        before = a;
    }
    ok
}

// The lengths of k entries that are there, summed. Kept for speed: no test stands between the reads.
#[tactic(auto, unfolding(crate::specs::Atlas::text_start))]
fn plain_start(pairs: &[u8], k: usize) -> u32
    requires { (k < 65536) × (2 * k ≤ length pairs.now) }
    ensures { result ≡ text_start pairs.now k }
{
    let mut sum: u32 = 0;
    for i in 0..k {
        sum += pairs[2 * i + 1] as u32;
    }
    sum
}

// Where entry k's text begins among the texts: for the number of entries, the texts' length.
#[tactic(auto, unfolding(crate::specs::Atlas::text_start))]
pub fn text_start(pairs: &[u8], k: u16) -> usize
    ensures { result ≡ text_start pairs.now k }
{
    if 2 * k as usize <= pairs.len() {
        return plain_start(pairs, k as usize) as usize;
    }
    let mut sum: usize = 0;
    for i in 0..k {
        sum += entry_length(pairs, i) as usize;
    }
    sum
}

fn text_byte_ok(kind: u8, c: u8) -> bool
    ensures { result ≡ text_byte_ok kind c }
{
    if kind == 3 {
        return (0x20 <= c) & (c <= 0x7e);
    }
    c < 0x80
}

// The n bytes of a name that are there. Kept for speed, as the next two: no test of the length stands between the reads.
fn plain_name_ok(text: &[u8], n: usize) -> bool
    requires { n ≤ length text.now }
    ensures { result ≡ all_below (λ j. leb 0x20 (u8_at text.now j) && leb (u8_at text.now j) 0x7e) n }
{
    let mut ok = true;
    for j in 0..n {
        let c = text[j];
        ok = ok & ((0x20 <= c) & (c <= 0x7e));
    }
    ok
}

// The same of a string.
fn plain_string_ok(text: &[u8], n: usize) -> bool
    requires { n ≤ length text.now }
    ensures { result ≡ all_below (λ j. ltb (u8_at text.now j) 0x80) n }
{
    let mut ok = true;
    for j in 0..n {
        ok = ok & (text[j] < 0x80);
    }
    ok
}

// A text of n bytes that are there.
#[tactic(auto, unfolding(crate::specs::Atlas::text_ok))]
fn plain_text_ok(kind: u8, n: u8, text: &[u8]) -> bool
    requires { n ≤ length text.now }
    ensures { result ≡ text_ok kind n text.now }
{
    if kind == 3 {
        return (1 <= n) & plain_name_ok(text, n as usize);
    }
    plain_string_ok(text, n as usize)
}

// A text of n bytes at the beginning of a part.
#[tactic(auto, unfolding(crate::specs::Atlas::text_ok))]
fn text_ok(kind: u8, n: u8, text: &[u8]) -> bool
    ensures { result ≡ text_ok kind n text.now }
{
    if n as usize <= text.len() {
        return plain_text_ok(kind, n, text);
    }
    let mut ok = true;
    for j in 0..n {
        ok = ok & text_byte_ok(kind, u8_at(text, j as usize));
    }
    ((kind != 3) | (1 <= n)) & ok
}

#[tactic(auto, unfolding(crate::specs::Atlas::text_start, crate::specs::Atlas::texts_ok))]
fn texts_ok(pairs: &[u8], texts: &[u8], atlas: u16) -> bool
    ensures { result ≡ texts_ok pairs.now texts.now atlas }
{
    let mut at: usize = 0;
    let mut ok = true;
    for k in 0..atlas {
        let n = entry_length(pairs, k);
        ok = ok & text_ok(entry_kind(pairs, k), n, from(texts, at));
        at += n as usize;
    }
    ok
}

// Question 9. The texts are read only once their lengths are known to total what the header says.
#[tactic(auto, unfolding(crate::specs::Atlas::atlas_ok))]
pub fn atlas_ok(entries: &[u8], pairs: &[u8], texts: &[u8], atlas: u16, text: u16) -> bool
    ensures { result ≡ atlas_ok entries.now pairs.now texts.now atlas text }
{
    if entries_ok(entries, pairs, atlas) {
        if text_start(pairs, atlas) == text as usize {
            return texts_ok(pairs, texts, atlas);
        }
    }
    false
}

pub fn span_first(spans: &[u8], k: u16) -> u64
    ensures { result ≡ span_first spans.now k }
{
    u64_at(spans, 16 * k as usize)
}

pub fn span_last(spans: &[u8], k: u16) -> u64
    ensures { result ≡ span_last spans.now k }
{
    u64_at(spans, 16 * k as usize + 8)
}

// Question 10.
#[tactic(auto, unfolding(crate::specs::Atlas::spans_ok))]
pub fn spans_ok(spans: &[u8], count: u16) -> bool
    ensures { result ≡ spans_ok spans.now count }
{
    let mut ok = true;
    for k in 0..count {
        ok = ok & (span_first(spans, k) <= span_last(spans, k));
    }
    ok
}
