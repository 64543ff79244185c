// Blocks and edges: readers over the part of the record that begins at their array, and questions 5 to 7.
// An address and a place in the listing order are different types, each with tests of its own, so that they cannot be compared.
ghost use Rattle.std.specs.Prelude.{◌≡◌, ◌<◌, ltb, eqb};
ghost use Rattle.record.specs.Blocks.{start_at, instructions_in, edges_in, label_mark, target_at, edge_kind_at, marks_ok, start_is_new, starts_differ, starts_rise, edge_kinds_ok};

use crate::search::first_of;
use lists::reads::{u8_at, u16_at, u64_at};

#[derive(Clone, Copy, PartialEq, Eq, PartialOrd, Ord)]
pub struct Address(pub u64);

#[derive(Clone, Copy, PartialEq, Eq, PartialOrd, Ord)]
pub struct Place(pub u16);

// One reader for each field of an array: with the field's offset as an argument the names would be lost.
pub fn start_at(starts: &[u8], k: Place) -> Address
    ensures { result.0 ≡ start_at starts.now k.0 }
{
    Address(u64_at(starts, 8 * k.0 as usize))
}

pub fn instructions_in(marks: &[u8], k: Place) -> u16
    ensures { (result ≡ instructions_in marks.now k.0) × (result < 65536) }
{
    u16_at(marks, 4 * k.0 as usize)
}

pub fn edges_in(marks: &[u8], k: Place) -> u8
    ensures { (result ≡ edges_in marks.now k.0) × (result < 256) }
{
    u8_at(marks, 4 * k.0 as usize + 2)
}

pub fn label_mark(marks: &[u8], k: Place) -> u8
    ensures { result ≡ label_mark marks.now k.0 }
{
    u8_at(marks, 4 * k.0 as usize + 3)
}

pub fn target_at(targets: &[u8], e: u16) -> Address
    ensures { result.0 ≡ target_at targets.now e }
{
    Address(u64_at(targets, 8 * e as usize))
}

pub fn edge_kind_at(kinds: &[u8], e: u16) -> u8
    ensures { result ≡ edge_kind_at kinds.now e }
{
    u8_at(kinds, e as usize)
}

// Question 5.
#[tactic(auto, unfolding(crate::specs::Blocks::marks_ok))]
pub fn marks_ok(marks: &[u8], blocks: u16, instructions: u16, edges: u16) -> bool
    ensures { result ≡ marks_ok marks.now blocks instructions edges }
{
    let mut total: u64 = 0;
    let mut sum: u64 = 0;
    let mut ok = true;
    for k in 0..blocks {
        total += instructions_in(marks, Place(k)) as u64;
        sum += edges_in(marks, Place(k)) as u64;
        ok = ok & (label_mark(marks, Place(k)) <= 1);
    }
    (total == instructions as u64) & (sum == edges as u64) & ok
}

// Whether block k's start differs from that of every block before it.
#[tactic(auto, unfolding(crate::specs::Blocks::start_is_new, crate::specs::Blocks::differ))]
fn start_is_new(starts: &[u8], k: u16) -> bool
    ensures { result ≡ start_is_new starts.now k }
{
    let x = start_at(starts, Place(k));
    first_of(starts, k, x.0).is_none()
}

// Whether each block starts above the one before it; `before` is that one's start, at first block 0's.
#[tactic(auto, unfolding(crate::specs::Blocks::starts_rise))]
pub fn starts_rise(starts: &[u8], blocks: u16) -> bool
    ensures { result ≡ starts_rise starts.now blocks }
{
    let mut before = start_at(starts, Place(0));
    let mut ok = true;
    for k in 0..blocks {
        let x = start_at(starts, Place(k));
        ok = ok & ((k == 0) | (before < x));
        before = x;
    }
    ok
}

// Question 6. Starts that rise differ, which one pass tells; other records ask it of each pair.
#[tactic(auto, unfolding(crate::specs::Blocks::starts_differ))]
pub fn starts_differ(starts: &[u8], blocks: u16) -> bool
    ensures { result ≡ starts_differ starts.now blocks }
{
    if starts_rise(starts, blocks) {
        return true;
    }
    for k in 0..blocks {
        if !start_is_new(starts, k) {
            return false;
        }
    }
    true
}

// Question 7.
#[tactic(auto, unfolding(crate::specs::Blocks::edge_kinds_ok))]
pub fn edge_kinds_ok(kinds: &[u8], edges: u16) -> bool
    ensures { result ≡ edge_kinds_ok kinds.now edges }
{
    let mut ok = true;
    for e in 0..edges {
        ok = ok & (edge_kind_at(kinds, e) <= 4);
    }
    ok
}
