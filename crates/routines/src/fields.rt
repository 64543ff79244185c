// What stands in a routine's record for one block, array by array. Each writer is told where in the list its bytes begin and answers where
// they end.
ghost use Rattle.std.specs.Prelude.{◌≡◌, true, ℕ, ◌+◌, ◌<◌, ◌≤◌, length, set};
ghost use Rattle.lists.specs.Little.{little};
ghost use Rattle.lists.specs.Put.{put};
ghost use Rattle.routines.specs.declared.fields.Array.TheVariants.{Marks};
ghost use Rattle.routines.specs.Written.{inside, start, edges, body_of, targets_of, kinds_of, entry_of};

use crate::ending::Ending;
use lists::stores::{put_slice, put_u16, put_u64, store};

// A record's arrays of what its blocks have, as they stand behind its header.
#[derive(Clone, Copy)]
pub enum Array {
    Starts,
    Marks,
    Targets,
    Kinds,
    Addresses,
    Bodies,
}

// Block k's start.
fn start(k: usize) -> u64
    requires { k ≤ 3 }
    ensures { result ≡ start k }
{
    0x1000 + 16 * k as u64
}

// How many edges a block has.
pub fn edges_in(e: Ending) -> usize
    ensures { ((k : ℕ) → result ≡ length (edges k e)) × (result ≤ 2) }
{
    match e {
        Ending::Ret => 0,
        Ending::Fall | Ending::Jmp(_) => 1,
        Ending::Jne(_) => 2,
    }
}

// One instruction, so many edges, a label wanted.
fn put_mark(out: &mut [u8], at: usize, e: Ending) -> usize
    requires { at < 1000 }
    ensures end { result ≡ at + 4 }
    ensures bytes { (k : ℕ) → out.new ≡ put at (entry_of Marks k e) out.old }
{
    put_u16(out, at, 1);
    store(out, at + 2, edges_in(e) as u8);
    store(out, at + 3, 1);
    at + 4
}

// Where block k's edges lead.
fn put_targets(out: &mut [u8], at: usize, k: usize, e: Ending) -> usize
    requires { (at < 1000) × (k < 3) × (inside e ≡ true) }
    ensures end { result ≡ at + length (targets_of (edges k e)) }
    ensures bytes { out.new ≡ put at (targets_of (edges k e)) out.old }
{
    match e {
        Ending::Ret => at,
        Ending::Fall => put_u64(out, at, start(k + 1)),
        Ending::Jmp(t) => put_u64(out, at, start(t)),
        Ending::Jne(t) => {
            let next = put_u64(out, at, start(t));
            put_u64(out, next, start(k + 1))
        }
    }
}

// The kinds of a block's edges.
fn put_kinds(out: &mut [u8], at: usize, e: Ending) -> usize
    requires { at < 1000 }
    ensures end { (k : ℕ) → result ≡ at + length (kinds_of (edges k e)) }
    ensures bytes { (k : ℕ) → out.new ≡ put at (kinds_of (edges k e)) out.old }
{
    match e {
        Ending::Ret => at,
        Ending::Fall => {
            store(out, at, 3);
            at + 1
        }
        Ending::Jmp(_) => {
            store(out, at, 0);
            at + 1
        }
        Ending::Jne(_) => {
            store(out, at, 1);
            store(out, at + 1, 2);
            at + 2
        }
    }
}

// A near branch to block t as the first operand, of which there is one.
fn put_branch(body: &mut [u8], t: usize)
    requires { t < 3 }
    ensures { body.new ≡ put 20 (little 8 (start t)) (set (set body.old 2 1) 18 2) }
{
    store(body, 2, 1);
    store(body, 18, 2);
    put_u64(body, 20, start(t));
}

// The 92 bytes of a block's instruction: ret; mov eax,1; jmp; jne, which is mnemonic 0 with its name and condition.
fn put_body(out: &mut [u8], at: usize, e: Ending) -> usize
    requires { (at + 92 ≤ length out.old) × (at < 1000) × (inside e ≡ true) }
    ensures end { result ≡ at + 92 }
    ensures bytes { out.new ≡ put at (body_of e) out.old }
{
    let mut body = [0u8; 92];
    body[7] = 1;
    match e {
        Ending::Ret => {
            body[0] = 24;
        }
        Ending::Fall => {
            body[0] = 1;
            body[2] = 2;
            body[19] = 64;
            body[28] = 5;
            body[30] = 1;
        }
        Ending::Jmp(t) => {
            body[0] = 25;
            put_branch(&mut body, t);
        }
        Ending::Jne(t) => {
            body[1] = 6;
            put_branch(&mut body, t);
            put_slice(&mut body[68..], b"jne");
        }
    }
    put_slice(&mut out[at..], &body);
    at + 92
}

// Block k's entry in an array.
pub fn put_entry(out: &mut [u8], at: usize, a: Array, k: usize, e: Ending) -> usize
    requires { (at + length (entry_of a k e) ≤ length out.old) × (at < 1000) × (k < 3) × (inside e ≡ true) }
    ensures end { result ≡ at + length (entry_of a k e) }
    ensures bytes { out.new ≡ put at (entry_of a k e) out.old }
{
    match a {
        Array::Starts => put_u64(out, at, start(k)),
        Array::Marks => put_mark(out, at, e),
        Array::Targets => put_targets(out, at, k, e),
        Array::Kinds => put_kinds(out, at, e),
        Array::Addresses => put_u64(out, at, start(k)),
        Array::Bodies => put_body(out, at, e),
    }
}
