// Operands: a register, an immediate, and `op`.
ghost use Rattle.std.specs.Prelude.{leb, ◌&&◌, [], ◌∷◌, List, ◌≡◌, ℕ, ◌≤◌, length};
ghost use Rattle.operand.specs.Names.{in_span};
ghost use Rattle.operand.specs.Operand.{immediate_number, immediate, op_tokens};
ghost use Rattle.codes.specs.Coded.{Coded};
ghost use Rattle.operand.specs.Lent.{Lent};
ghost use Rattle.codes.specs.Tables.{table_bytes};

use crate::memory::mem;
use crate::names::{in_span, name_or};
use crate::numbers::{in_window, signed_read};
use codes::code::{code_num, code_register, code_word};
use codes::tables::Tables;
use record::body::{op_kind, op_number, op_register};
use record::header::Header;
use tokens::words::{LOC, OFF, UNKNOWN};

// Whether an immediate is an address in a span.
fn is_address(rec: &[u8], h: Header, v: u64) -> bool
    ensures { result ≡ (leb 0x1000 v && in_span h rec.now v) }
{
    if v < 0x1000 {
        return false;
    }
    in_span(rec, h, v)
}

// An immediate as a number: negative in the window.
#[tactic(auto, unfolding(crate::specs::Operand::immediate_number))]
fn code_immediate(codes: &mut [u64], kind: u8, v: u64)
    requires { 5 ≤ length codes.old }
    ensures { (t s : List ℕ) → Coded t s codes.old codes.new (immediate_number kind v ∷ []) }
{
    let s = signed_read(kind, v);
    if in_window(s) {
        return code_num(codes, true, s.unsigned_abs());
    }
    code_num(codes, false, v)
}

// An immediate: an address in a span by its name, before any sign is asked.
#[tactic(auto, unfolding(crate::specs::Operand::immediate, tokens::specs::Words::word_token, tokens::specs::Words::words))]
fn immediate(codes: &mut [u64], tables: Tables<'_>, rec: &[u8], h: Header, kind: u8, v: u64)
    requires { Lent codes.old h rec.now }
    ensures { Coded table_bytes rec.now codes.old codes.new (immediate h rec.now kind v ∷ []) }
{
    if is_address(rec, h, v) {
        return name_or(codes, tables, rec, h, v, OFF);
    }
    code_immediate(codes, kind, v)
}

// Operand i of a body, read from its slot.
#[tactic(auto, unfolding(crate::specs::Operand::op_tokens, tokens::specs::Words::word_token, tokens::specs::Words::words))]
pub fn op(codes: &mut [u64], tables: Tables<'_>, rec: &[u8], h: Header, body: &[u8], i: u8)
    requires { Lent codes.old h rec.now }
    ensures { Coded table_bytes rec.now codes.old codes.new (op_tokens h rec.now body.now i) }
{
    let kind = op_kind(body, i);
    match kind {
        0 => code_register(codes, tables, op_register(body, i)),
        1 => mem(codes, tables, rec, h, body, true),
        2 => name_or(codes, tables, rec, h, op_number(body, i), LOC),
        3..=10 => immediate(codes, tables, rec, h, kind, op_number(body, i)),
        _ => code_word(codes, tables, UNKNOWN),
    }
}
