// The call that makes a routine. Nothing is demanded of the caller.
ghost use Rattle.std.specs.Prelude.{◌≡◌, ◌+◌, ◌<◌, ◌≤◌, length};
ghost use Rattle.lists.specs.Put.{put};
ghost use Rattle.routines.specs.Numbered.{routine_at};
ghost use Rattle.routines.specs.Written.{edge_count, entry_of, each, header_bytes, record_of};
ghost use Rattle.routines.specs.Called.{Makes};

use crate::ending::{blocks_of, ending_at};
use crate::fields::{Array, edges_in, put_entry};
use lists::question::Question;
use lists::stores::{put_u16, put_u64, store};

// How many edges routine k has.
fn edges_of(k: usize) -> usize
    requires { k < 276 }
    ensures { (result ≡ edge_count 0 (routine_at k)) × (result ≤ 6) }
{
    let n = blocks_of(k);
    let mut edges = 0;
    for j in 0..n {
        edges += edges_in(ending_at(k, j));
    }
    edges
}

// How long its record is: the header, a start, a mark, an address and a body for each block, a target and a kind for each edge.
fn size_of(k: usize) -> usize
    requires { k < 276 }
    ensures { (result ≡ length (record_of (routine_at k))) × (result ≤ 414) }
{
    24 + 112 * blocks_of(k) + 9 * edges_of(k)
}

// Bits 64, convention 1, so many blocks, instructions and edges, indent 1, every other field 0.
fn put_header(out: &mut [u8], blocks: usize, edges: usize) -> usize
    requires { (blocks ≤ 3) × (edges ≤ 6) × (24 ≤ length out.old) }
    ensures end { result ≡ 24 }
    ensures bytes { out.new ≡ put 0 (header_bytes blocks edges) out.old }
{
    put_u16(out, 0, 64);
    put_u16(out, 2, 1);
    put_u16(out, 4, blocks as u16);
    put_u16(out, 6, blocks as u16);
    put_u16(out, 8, edges as u16);
    put_u16(out, 10, 0);
    put_u64(out, 12, 0);
    store(out, 20, 0);
    store(out, 21, 1);
    put_u16(out, 22, 0)
}

// An array of routine k.
fn put_array(out: &mut [u8], at: usize, a: Array, k: usize) -> usize
    requires { (k < 276) × (at + length (each (entry_of a) 0 (routine_at k)) ≤ length out.old) × (at < 500) }
    ensures end { result ≡ at + length (each (entry_of a) 0 (routine_at k)) }
    ensures bytes { out.new ≡ put at (each (entry_of a) 0 (routine_at k)) out.old }
{
    let n = blocks_of(k);
    let mut next = at;
    for j in 0..n {
        next = put_entry(out, next, a, j, ending_at(k, j));
    }
    next
}

// Routine k's record.
fn put_record(out: &mut [u8], k: usize)
    requires { (k < 276) × (length (record_of (routine_at k)) ≤ length out.old) }
    ensures { out.new ≡ put 0 (record_of (routine_at k)) out.old }
{
    let starts = put_header(out, blocks_of(k), edges_of(k));
    let marks = put_array(out, starts, Array::Starts, k);
    let targets = put_array(out, marks, Array::Marks, k);
    let kinds = put_array(out, targets, Array::Targets, k);
    let addresses = put_array(out, kinds, Array::Kinds, k);
    let bodies = put_array(out, addresses, Array::Addresses, k);
    put_array(out, bodies, Array::Bodies, k);
}

// Routine k as a record, or 18 if there is none with this number, or 12 if the list is shorter.
pub fn routine(k: usize, out: &mut [u8]) -> Result<usize, Question>
    ensures { Makes k out.old out.new result }
{
    if k >= 276 {
        return Err(Question::Routine);
    }
    let size = size_of(k);
    if out.len() < size {
        return Err(Question::TextRoom);
    }
    put_record(out, k);
    Ok(size)
}
