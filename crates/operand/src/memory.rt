// Memory operands, read or as an address.
ghost use Rattle.std.specs.Prelude.{true, false, ◌||◌, [], ◌∷◌, List, ◌≡◌, ℕ, ◌≤◌, ◌<◌, length};
ghost use Rattle.lists.specs.Choice.{pick};
ghost use Rattle.tokens.specs.Token.{punct, register};
ghost use Rattle.tokens.specs.Words.{word_token, prefixed};
ghost use Rattle.std.specs.Prelude.{Some};
ghost use Rattle.operand.specs.Names.{entry_token, literal_at};
ghost use Rattle.operand.specs.Memory.{register_token, number, type_word, prefix_word, segment_word, segment_read, global, slot_token, address_of, scaled, registers, address_expr, address, is_segment_read, is_global, mem_tokens};
ghost use Rattle.codes.specs.Coded.{Coded};
ghost use Rattle.codes.specs.Tables.{table_bytes};
ghost use Rattle.operand.specs.Lent.{Lent};

use crate::names::{code_entry, entry_at};
use crate::slots::{displacement, is_slot, slot_base, slot_number};
use codes::code::{code_num, code_prefixed, code_register, code_word};
use codes::tables::Tables;
use lists::parts::from;
use record::atlas::entry_kind;
use record::body::{
    memory_address, memory_base, memory_index, memory_index_scale, memory_segment, memory_size,
};
use record::header::Header;
use record::layout::pairs_at;
use tokens::words::{
    ADDRESS_OF, ARG, AT_U8, BYTE, CLOSE, MINUS, OPEN, PLUS, READ_FS_BYTE, READ_FS_DWORD,
    READ_FS_QWORD, READ_GS_BYTE, READ_GS_DWORD, READ_GS_QWORD, TIMES, VAR,
};
use x86::sizes::{prefix_index, size_index};
use x86::width::is_stack_pointer;

// The word that reads a segment register's memory.
#[tactic(auto, unfolding(crate::specs::Memory::segment_word, tokens::specs::Words::word_token, tokens::specs::Words::words))]
fn segment_word(seg: u8, size: u16) -> u8
    ensures { word_token result ≡ segment_word seg size }
{
    match (seg, size) {
        (0x75, 8) => READ_GS_QWORD,
        (0x75, 4) => READ_GS_DWORD,
        (0x75, _) => READ_GS_BYTE,
        (_, 8) => READ_FS_QWORD,
        (_, 4) => READ_FS_DWORD,
        _ => READ_FS_BYTE,
    }
}

// The prefix of a global of a size.
fn prefix_word(size: u16) -> u8
    ensures { (word_token result ≡ prefix_word size) × (result < 102) }
{
    BYTE + prefix_index(size)
}

// The word of a slot.
#[tactic(auto, unfolding(tokens::specs::Words::word_token, tokens::specs::Words::words))]
fn slot_word(sp: bool, negative: bool) -> u8
    ensures { (word_token result ≡ pick (sp || negative) (register "var_") (register "arg_")) × (result < 102) }
{
    if sp | negative { VAR } else { ARG }
}

fn registers_loose(h: Header, body: &[u8]) -> bool
    ensures { result ≡ (registers h body.now).loose }
{
    if memory_index(body) == 0 {
        return false;
    }
    if slot_base(h, body) == 0 {
        return 1 < memory_index_scale(body);
    }
    true
}

// The word between registers and displacement.
#[tactic(auto, unfolding(tokens::specs::Words::word_token, tokens::specs::Words::words))]
fn sign_word(negative: bool) -> u8
    ensures { word_token result ≡ pick negative (punct " - ") (punct " + ") }
{
    if negative { MINUS } else { PLUS }
}

#[tactic(auto, unfolding(crate::specs::Memory::address_expr))]
fn address_loose(h: Header, body: &[u8]) -> bool
    ensures { result ≡ (address_expr h body.now).loose }
{
    let d = displacement(h, body);
    if d.size == 0 {
        return registers_loose(h, body);
    }
    true
}

// The word of a size that is read.
#[tactic(auto, using(crate::proofs::WordNames::type_word_lem))]
fn type_word(size: u16) -> u8
    ensures { word_token result ≡ type_word size }
{
    AT_U8 + size_index(size)
}

fn is_segment_read(body: &[u8]) -> bool
    ensures { result ≡ is_segment_read body.now }
{
    let seg = memory_segment(body);
    ((seg == 0x74) | (seg == 0x75)) & (memory_base(body) == 0) & (memory_index(body) == 0)
}

fn is_global(body: &[u8]) -> bool
    ensures { result ≡ is_global body.now }
{
    let base = memory_base(body);
    (base == 0x60) | (base == 0x61) | ((base == 0) & (memory_index(body) == 0))
}

// A number in parentheses.
fn code_argument(codes: &mut [u64], tables: Tables<'_>, v: u64)
    requires { 5 ≤ length codes.old }
    ensures { (s : List ℕ) → Coded table_bytes s codes.old codes.new (punct "(" ∷ number false v ∷ punct ")" ∷ []) }
{
    code_word(codes, tables, OPEN);
    code_num(codes, false, v);
    code_word(codes, tables, CLOSE)
}

// A read by fs or gs.
fn code_segment(codes: &mut [u64], tables: Tables<'_>, body: &[u8])
    requires { 5 ≤ length codes.old }
    ensures { (s : List ℕ) → Coded table_bytes s codes.old codes.new (segment_read body.now) }
{
    let w = segment_word(memory_segment(body), memory_size(body));
    code_word(codes, tables, w);
    code_argument(codes, tables, memory_address(body))
}

// A word, or nothing. One function over a closure is no plainer here: its contract has to say what the closure codes.
fn code_if(codes: &mut [u64], tables: Tables<'_>, w: u8, wanted: bool)
    requires { 5 ≤ length codes.old }
    ensures { (s : List ℕ) → Coded table_bytes s codes.old codes.new (pick wanted (word_token w ∷ []) []) }
{
    if wanted {
        return code_word(codes, tables, w);
    }
}

// A global that has an entry: only of a name is there an address.
fn code_named(codes: &mut [u64], tables: Tables<'_>, rec: &[u8], h: Header, k: u16, deref: bool)
    requires { 5 ≤ length codes.old }
    ensures { Coded table_bytes rec.now codes.old codes.new (address_of (deref || literal_at h rec.now (Some k)) (entry_token h rec.now k)) }
{
    let plain = deref | (entry_kind(from(rec, pairs_at(h)), k) != 3);
    code_if(codes, tables, ADDRESS_OF, !plain);
    code_entry(codes, rec, h, k)
}

// A global that has none: word w is its prefix.
fn code_unnamed(codes: &mut [u64], tables: Tables<'_>, w: u8, va: u64, deref: bool)
    requires in_bounds { 5 ≤ length codes.old }
    requires w_bound { w < 102 }
    ensures { (s : List ℕ) → Coded table_bytes s codes.old codes.new (address_of deref (prefixed (word_token w) va)) }
{
    code_if(codes, tables, ADDRESS_OF, !deref);
    code_prefixed(codes, tables, w, va)
}

// A global: the atlas is searched once, for the `&` and for the token.
fn code_global(
    codes: &mut [u64],
    tables: Tables<'_>,
    rec: &[u8],
    h: Header,
    body: &[u8],
    deref: bool,
)
    requires { Lent codes.old h rec.now }
    ensures { Coded table_bytes rec.now codes.old codes.new (global h rec.now deref body.now) }
{
    let va = memory_address(body);
    let w = prefix_word(memory_size(body));
    match entry_at(rec, h, va) {
        Some(k) => code_named(codes, tables, rec, h, k, deref),
        None => code_unnamed(codes, tables, w, va, deref),
    }
}

// A stack slot.
fn code_slot(codes: &mut [u64], tables: Tables<'_>, h: Header, body: &[u8], deref: bool)
    requires { 5 ≤ length codes.old }
    ensures { (s : List ℕ) → Coded table_bytes s codes.old codes.new (address_of deref (slot_token h body.now)) }
{
    let n = slot_number(h, body);
    let w = slot_word(is_stack_pointer(h.bits, slot_base(h, body)), n.negative);
    if deref {
        return code_prefixed(codes, tables, w, n.size);
    }
    code_word(codes, tables, ADDRESS_OF);
    code_prefixed(codes, tables, w, n.size)
}

// The index with its scale.
fn code_scaled(codes: &mut [u64], tables: Tables<'_>, body: &[u8])
    requires { 5 ≤ length codes.old }
    ensures { (s : List ℕ) → Coded table_bytes s codes.old codes.new (scaled body.now).tokens }
{
    code_register(codes, tables, memory_index(body));
    let scale = memory_index_scale(body);
    if 1 < scale {
        code_word(codes, tables, TIMES);
        return code_num(codes, false, scale as u64);
    }
}

// The index with its scale, or nothing.
fn code_index(codes: &mut [u64], tables: Tables<'_>, body: &[u8], wanted: bool)
    requires { 5 ≤ length codes.old }
    ensures { (s : List ℕ) → Coded table_bytes s codes.old codes.new (pick wanted (scaled body.now).tokens []) }
{
    if wanted {
        return code_scaled(codes, tables, body);
    }
}

// The base, or nothing.
fn code_base(codes: &mut [u64], tables: Tables<'_>, base: u8, wanted: bool)
    requires { 5 ≤ length codes.old }
    ensures { (s : List ℕ) → Coded table_bytes s codes.old codes.new (pick wanted (register_token base ∷ []) []) }
{
    if wanted {
        return code_register(codes, tables, base);
    }
}

// Base and index: a scaled index behind a base stands in parentheses.
fn code_registers(codes: &mut [u64], tables: Tables<'_>, h: Header, body: &[u8])
    requires { 5 ≤ length codes.old }
    ensures { (s : List ℕ) → Coded table_bytes s codes.old codes.new (registers h body.now).tokens }
{
    let base = slot_base(h, body);
    let index = memory_index(body);
    let scale = memory_index_scale(body);
    let both = (base != 0) & (index != 0);
    let loose = both & (1 < scale);
    code_base(codes, tables, base, (base != 0) | (index == 0));
    code_if(codes, tables, PLUS, both);
    code_if(codes, tables, OPEN, loose);
    code_index(codes, tables, body, index != 0);
    code_if(codes, tables, CLOSE, loose)
}

// An address: in front of a displacement loose registers stand in parentheses.
fn code_address(codes: &mut [u64], tables: Tables<'_>, h: Header, body: &[u8])
    requires { 5 ≤ length codes.old }
    ensures { (s : List ℕ) → Coded table_bytes s codes.old codes.new (address_expr h body.now).tokens }
{
    let d = displacement(h, body);
    let far = d.size != 0;
    let loose = far & registers_loose(h, body);
    code_if(codes, tables, OPEN, loose);
    code_registers(codes, tables, h, body);
    code_if(codes, tables, CLOSE, loose);
    if far {
        code_word(codes, tables, sign_word(d.negative));
        return code_num(codes, false, d.size);
    }
}

// What registers and displacement lead to: read, with a loose address in parentheses, or as the address.
fn code_place(codes: &mut [u64], tables: Tables<'_>, h: Header, body: &[u8], deref: bool)
    requires { 5 ≤ length codes.old }
    ensures { (s : List ℕ) → Coded table_bytes s codes.old codes.new (address h deref body.now).tokens }
{
    let loose = deref & address_loose(h, body);
    code_if(codes, tables, type_word(memory_size(body)), deref);
    code_if(codes, tables, OPEN, loose);
    code_address(codes, tables, h, body);
    code_if(codes, tables, CLOSE, loose)
}

// A memory operand, read or as an address.
#[tactic(auto, unfolding(crate::specs::Memory::mem_tokens, crate::specs::Memory::mem_expr))]
pub fn mem(codes: &mut [u64], tables: Tables<'_>, rec: &[u8], h: Header, body: &[u8], deref: bool)
    requires { Lent codes.old h rec.now }
    ensures { Coded table_bytes rec.now codes.old codes.new (mem_tokens h rec.now deref body.now) }
{
    if is_segment_read(body) {
        return code_segment(codes, tables, body);
    }
    if is_global(body) {
        return code_global(codes, tables, rec, h, body, deref);
    }
    if is_slot(h, body) {
        return code_slot(codes, tables, h, body, deref);
    }
    code_place(codes, tables, h, body, deref)
}
