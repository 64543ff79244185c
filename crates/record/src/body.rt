// An instruction's body: readers over the part of the record that begins at it, and question 8.
ghost use Rattle.std.specs.Prelude.{◌≡◌, ◌-◌, ◌*◌, ◌<◌, ◌≤◌, length};
ghost use Rattle.lists.specs.Bytes.{u8_at};
ghost use Rattle.record.specs.Body.{address_at, body_at, mnemonic_of, condition_of, operand_count, skip_mark, segment_of, base_of, index_of, scale_of, memory_size, memory_address, operand_kind, register_byte, operand_register, operand_number, is_conditional_branch, name_byte, condition_ok, scale_ok, operand_ok, fixed_ok, is_name, is_zeros, operands_ok, body_ok, bodies_ok};

use lists::parts::from;
use lists::reads::{plain_u8, plain_u64, u8_at, u16_at, u64_at};
use x86::registers::{Missing, missing_table, register_known};

pub fn address_at(addresses: &[u8], i: u16) -> u64
    ensures { result ≡ address_at addresses.now i }
{
    u64_at(addresses, 8 * i as usize)
}

pub fn body_at(bodies: &[u8], i: u16) -> &[u8]
    ensures { result.now ≡ body_at bodies.now i }
{
    from(bodies, 92 * i as usize)
}

// One reader for each field: with the field's offset as an argument the names would be lost.
pub fn mnemonic(body: &[u8]) -> u8
    ensures { result ≡ mnemonic_of body.now }
{
    u8_at(body, 0)
}

pub fn condition_code(body: &[u8]) -> u8
    ensures { result ≡ condition_of body.now }
{
    u8_at(body, 1)
}

pub fn op_count(body: &[u8]) -> u8
    ensures { result ≡ operand_count body.now }
{
    u8_at(body, 2)
}

pub fn skip_mark(body: &[u8]) -> u8
    ensures { result ≡ skip_mark body.now }
{
    u8_at(body, 3)
}

pub fn memory_segment(body: &[u8]) -> u8
    ensures { result ≡ segment_of body.now }
{
    u8_at(body, 4)
}

pub fn memory_base(body: &[u8]) -> u8
    ensures { result ≡ base_of body.now }
{
    u8_at(body, 5)
}

pub fn memory_index(body: &[u8]) -> u8
    ensures { result ≡ index_of body.now }
{
    u8_at(body, 6)
}

pub fn memory_index_scale(body: &[u8]) -> u8
    ensures { result ≡ scale_of body.now }
{
    u8_at(body, 7)
}

pub fn memory_size(body: &[u8]) -> u16
    ensures { result ≡ memory_size body.now }
{
    u16_at(body, 8)
}

pub fn memory_address(body: &[u8]) -> u64
    ensures { result ≡ memory_address body.now }
{
    u64_at(body, 10)
}

pub fn op_kind(body: &[u8], i: u8) -> u8
    ensures { result ≡ operand_kind body.now i }
{
    u8_at(body, 18 + 10 * i as usize)
}

fn register_byte(body: &[u8], i: u8) -> u8
    ensures { (result ≡ register_byte body.now i) × (result < 256) }
{
    u8_at(body, 18 + 10 * i as usize + 1)
}

pub fn op_register(body: &[u8], i: u8) -> u8
    ensures { result ≡ operand_register body.now i }
{
    if op_kind(body, i) == 0 {
        return register_byte(body, i);
    }
    0
}

pub fn op_number(body: &[u8], i: u8) -> u64
    ensures { result ≡ operand_number body.now i }
{
    u64_at(body, 18 + 10 * i as usize + 2)
}

// A condition, and a near branch first.
pub fn is_conditional_branch(body: &[u8]) -> bool
    ensures { result ≡ is_conditional_branch body.now }
{
    (condition_code(body) != 0) & (op_kind(body, 0) == 2)
}

fn condition_ok(m: u8, c: u8) -> bool
    ensures { result ≡ condition_ok m c }
{
    (m <= 45) & (c <= 16) & ((m == 0) | (((m == 26) | (m == 27)) == (c != 0)))
}

fn scale_ok(k: u8) -> bool
    ensures { result ≡ scale_ok k }
{
    (k == 1) | (k == 2) | (k == 4) | (k == 8)
}

#[tactic(auto, unfolding(crate::specs::Body::fixed_ok))]
fn fixed_ok(missing: Missing<'_>, body: &[u8]) -> bool
    ensures { result ≡ fixed_ok body.now }
{
    condition_ok(mnemonic(body), condition_code(body))
        & (op_count(body) <= 5)
        & (skip_mark(body) <= 1)
        & register_known(missing, memory_segment(body))
        & register_known(missing, memory_base(body))
        & register_known(missing, memory_index(body))
        & scale_ok(memory_index_scale(body))
}

#[tactic(auto, unfolding(crate::specs::Body::operand_ok))]
fn operand_ok(missing: Missing<'_>, body: &[u8], i: u8) -> bool
    ensures { result ≡ operand_ok body.now i }
{
    (op_kind(body, i) <= 11) & register_known(missing, register_byte(body, i))
}

fn name_byte(c: u8) -> bool
    ensures { result ≡ name_byte c }
{
    ((97 <= c) & (c <= 122)) | ((48 <= c) & (c <= 57)) | (c == 95)
}

// A name: a letter, digit or `_`, then more of them, then zeros; `before` is the byte before the one read.
fn is_name(name: &[u8]) -> bool
    ensures { result ≡ is_name name.now }
{
    let first = u8_at(name, 0);
    let mut before = first;
    let mut ok = true;
    for k in 0..23 {
        let c = u8_at(name, k + 1);
        ok = ok & ((c == 0) | (name_byte(c) & (before != 0)));
        before = c;
    }
    name_byte(first) & ok
}

// Eight bytes are zeros where their number is.
#[tactic(auto, using(crate::proofs::Zeros::words_zero))]
fn is_zeros(name: &[u8]) -> bool
    ensures { result ≡ is_zeros name.now }
{
    (u64_at(name, 0) == 0) & (u64_at(name, 8) == 0) & (u64_at(name, 16) == 0)
}

#[tactic(auto, unfolding(crate::specs::Body::operands_ok))]
fn operands_ok(missing: Missing<'_>, body: &[u8]) -> bool
    ensures { result ≡ operands_ok body.now }
{
    let mut ok = true;
    for i in 0..5 {
        ok = ok & operand_ok(missing, body, i);
    }
    ok
}

#[tactic(auto, unfolding(crate::specs::Body::body_ok))]
fn body_ok(missing: Missing<'_>, body: &[u8]) -> bool
    ensures { result ≡ body_ok body.now }
{
    let fixed = fixed_ok(missing, body) & operands_ok(missing, body);
    let name = from(body, 68);
    if mnemonic(body) == 0 {
        return fixed & is_name(name);
    }
    fixed & is_zeros(name)
}

// A body that is there. What follows is the same of it, kept for speed: no test of the length stands between the reads.
#[derive(Clone, Copy)]
struct Whole<'a> {
    bytes: &'a [u8],
    ghost there: { 92 ≤ length bytes.now },
}

impl<'a> Whole<'a> {
    fn byte(self, at: usize) -> u8
        requires { at < 92 }
        ensures { result ≡ u8_at self.entry.bytes.now at }
    {
        plain_u8(self.bytes, at)
    }
}

#[tactic(auto, unfolding(crate::specs::Body::fixed_ok))]
fn plain_fixed_ok(missing: Missing<'_>, body: Whole<'_>) -> bool
    ensures { result ≡ fixed_ok body.entry.bytes.now }
{
    condition_ok(body.byte(0), body.byte(1))
        & (body.byte(2) <= 5)
        & (body.byte(3) <= 1)
        & register_known(missing, body.byte(4))
        & register_known(missing, body.byte(5))
        & register_known(missing, body.byte(6))
        & scale_ok(body.byte(7))
}

#[tactic(auto, unfolding(crate::specs::Body::operand_ok))]
fn plain_operand_ok(missing: Missing<'_>, body: Whole<'_>, i: usize) -> bool
    requires { i < 5 }
    ensures { result ≡ operand_ok body.entry.bytes.now i }
{
    (body.byte(18 + 10 * i) <= 11) & register_known(missing, body.byte(18 + 10 * i + 1))
}

#[tactic(auto, unfolding(crate::specs::Body::operands_ok))]
fn plain_operands_ok(missing: Missing<'_>, body: Whole<'_>) -> bool
    ensures { result ≡ operands_ok body.entry.bytes.now }
{
    plain_operand_ok(missing, body, 0)
        & plain_operand_ok(missing, body, 1)
        & plain_operand_ok(missing, body, 2)
        & plain_operand_ok(missing, body, 3)
        & plain_operand_ok(missing, body, 4)
}

// Kept for speed: the same of a name that is there.
fn plain_name(name: &[u8]) -> bool
    requires { 24 ≤ length name.now }
    ensures { result ≡ is_name name.now }
{
    let first = plain_u8(name, 0);
    let mut before = first;
    let mut ok = true;
    for k in 0..23 {
        let c = plain_u8(name, k + 1);
        ok = ok & ((c == 0) | (name_byte(c) & (before != 0)));
        before = c;
    }
    name_byte(first) & ok
}

#[tactic(auto, using(crate::proofs::Zeros::words_zero))]
fn plain_zeros(name: &[u8]) -> bool
    requires { 24 ≤ length name.now }
    ensures { result ≡ is_zeros name.now }
{
    (plain_u64(name, 0) == 0) & (plain_u64(name, 8) == 0) & (plain_u64(name, 16) == 0)
}

#[tactic(auto, unfolding(crate::specs::Body::body_ok))]
fn plain_body_ok(missing: Missing<'_>, body: Whole<'_>) -> bool
    ensures { result ≡ body_ok body.entry.bytes.now }
{
    if plain_fixed_ok(missing, body) & plain_operands_ok(missing, body) {
        let name = from(body.bytes, 68);
        if body.byte(0) == 0 {
            return plain_name(name);
        }
        return plain_zeros(name);
    }
    false
}

#[tactic(auto, unfolding(crate::specs::Body::bodies_ok))]
fn plain_bodies_ok(bodies: &[u8], instructions: u16) -> bool
    requires { 92 * instructions ≤ length bodies.now }
    ensures { result ≡ bodies_ok bodies.now instructions }
{
    let table = missing_table();
    let missing = Missing { bytes: &table };
    for i in 0..instructions {
        let body = Whole {
            bytes: body_at(bodies, i),
        };
        if !plain_body_ok(missing, body) {
            return false;
        }
    }
    true
}

// Question 8, of the instructions.
#[tactic(auto, unfolding(crate::specs::Body::bodies_ok))]
pub fn bodies_ok(bodies: &[u8], instructions: u16) -> bool
    ensures { result ≡ bodies_ok bodies.now instructions }
{
    if 92 * instructions as usize <= bodies.len() {
        return plain_bodies_ok(bodies, instructions);
    }
    let table = missing_table();
    let missing = Missing { bytes: &table };
    let mut ok = true;
    for i in 0..instructions {
        ok = ok & body_ok(missing, body_at(bodies, i));
    }
    ok
}
