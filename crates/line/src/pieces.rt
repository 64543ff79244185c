// The token codes of a line: its form's pieces, one after the other.
ghost use Rattle.std.specs.Prelude.{false, List, [], ◌∷◌, map, ◌≡◌, ℕ, ◌≤◌, ◌<◌, ◌-◌, length};
ghost use Rattle.codes.specs.Coded.{is_plain, Coded};
ghost use Rattle.codes.specs.Tables.{table_bytes};
ghost use Rattle.operand.specs.Operand.{op_tokens};
ghost use Rattle.operand.specs.Lent.{Lent};
ghost use Rattle.operand.specs.Memory.{register_token};
ghost use Rattle.x86.specs.Width.{return_register};
ghost use Rattle.expressions.specs.Condition.{body_of};
ghost use Rattle.line.specs.declared.pieces.Site.{Site};
ghost use Rattle.line.specs.Codes.{row_bytes, piece_of, codes_of};
ghost use Rattle.line.specs.Print.{piece_tokens, pieces_tokens};

use crate::asm::assembly;
use crate::rows::Rows;
use codes::code::{code_num, code_prefixed, code_register, code_word};
use codes::tables::Tables;
use expressions::arguments::arguments;
use expressions::condition::condition;
use lists::parts::from;
use operand::memory::mem;
use operand::names::name_or;
use operand::operand::op;
use record::blocks::{Place, start_at};
use record::body::{condition_code, op_kind, op_number, op_register};
use record::header::Header;
use tokens::words::{LOC, SUB};
use x86::conditions::negate;
use x86::width::return_register;

// Pieces and forms stay numbers: they are bytes of the fixed table of rows.

// What a line is printed with: its instruction, the first instruction of its block and of its range, its place, the registers
// written.
#[derive(Clone, Copy)]
pub struct Site {
    pub at: u16,
    pub first: u16,
    pub range: u16,
    pub place: u16,
    pub written: u16,
}

// The return register.
fn code_accumulator(codes: &mut [u64], tables: Tables<'_>, bits: u16)
    requires { 5 ≤ length codes.old }
    ensures { (s : List ℕ) → Coded table_bytes s codes.old codes.new (register_token (return_register bits) ∷ []) }
{
    code_register(codes, tables, return_register(bits))
}

// The memory operand as an address, 0 and -1: pieces 136 to 138.
#[tactic(auto, unfolding(crate::specs::Codes::piece_of, crate::specs::Print::piece_tokens))]
fn code_value(codes: &mut [u64], tables: Tables<'_>, rec: &[u8], h: Header, body: &[u8], piece: u8)
    requires lent { Lent codes.old h rec.now }
    requires le_piece { (136 ≤ piece) × (piece < 139) }
    ensures { (site : Site) → body.now ≡ body_of h rec.now site.at
        → Coded table_bytes rec.now codes.old codes.new (piece_tokens h rec.now site (piece_of piece)) }
{
    match piece {
        136 => mem(codes, tables, rec, h, body, false),
        137 => code_num(codes, false, 0),
        _ => code_num(codes, true, 1),
    }
}

// The condition, or the one that it turns into: pieces 139 and 140.
#[tactic(auto, unfolding(crate::specs::Codes::piece_of, crate::specs::Print::piece_tokens))]
fn code_tested(
    codes: &mut [u64],
    tables: Tables<'_>,
    rec: &[u8],
    h: Header,
    site: Site,
    body: &[u8],
    piece: u8,
)
    requires lent { Lent codes.old h rec.now }
    requires body_value { body.now ≡ body_of h rec.now site.at }
    requires le_piece { (139 ≤ piece) × (piece < 141) }
    ensures { Coded table_bytes rec.now codes.old codes.new (piece_tokens h rec.now site (piece_of piece)) }
{
    let cc = condition_code(body);
    if piece == 139 {
        return condition(codes, tables, rec, h, site.first, site.at, cc);
    }
    let n = negate(tables.isa(), cc);
    condition(codes, tables, rec, h, site.first, site.at, n)
}

// The names of the branch's target and of the block: pieces 142 to 144.
fn code_named(
    codes: &mut [u64],
    tables: Tables<'_>,
    rec: &[u8],
    h: Header,
    site: Site,
    body: &[u8],
    piece: u8,
)
    requires lent { Lent codes.old h rec.now }
    requires body_value { body.now ≡ body_of h rec.now site.at }
    requires le_piece { (142 ≤ piece) × (piece < 145) }
    ensures { Coded table_bytes rec.now codes.old codes.new (piece_tokens h rec.now site (piece_of piece)) }
{
    if piece == 142 {
        return name_or(codes, tables, rec, h, op_number(body, 0), LOC);
    }
    if piece == 143 {
        return name_or(codes, tables, rec, h, op_number(body, 0), SUB);
    }
    let start = start_at(from(rec, 24), Place(site.place));
    code_prefixed(codes, tables, LOC, start.0)
}

// The registers rax, eax and ecx, from piece 147 on; past the last piece 0.
fn code_fixed(codes: &mut [u64], tables: Tables<'_>, h: Header, piece: u8)
    requires in_bounds { 5 ≤ length codes.old }
    requires le_piece { 147 ≤ piece }
    ensures { (s : List ℕ) (site : Site) → Coded table_bytes s codes.old codes.new (piece_tokens h s site (piece_of piece)) }
{
    match piece {
        147 => code_register(codes, tables, 0x50),
        148 => code_register(codes, tables, 0x40),
        149 => code_register(codes, tables, 0x41),
        _ => code_num(codes, false, 0),
    }
}

// The pieces from 145 on.
#[tactic(auto, unfolding(crate::specs::Codes::piece_of, crate::specs::Print::piece_tokens))]
fn code_late(
    codes: &mut [u64],
    tables: Tables<'_>,
    rec: &[u8],
    h: Header,
    site: Site,
    body: &[u8],
    piece: u8,
)
    requires lent { Lent codes.old h rec.now }
    requires body_value { body.now ≡ body_of h rec.now site.at }
    requires codes_value { is_plain codes.old ≡ false }
    requires le_piece { 145 ≤ piece }
    ensures { Coded table_bytes rec.now codes.old codes.new (piece_tokens h rec.now site (piece_of piece)) }
{
    match piece {
        145 => code_accumulator(codes, tables, h.bits),
        146 => assembly(codes, tables, rec, h, site.at, body),
        _ => code_fixed(codes, tables, h, piece),
    }
}

// The pieces that are neither words nor operands.
#[tactic(auto, unfolding(crate::specs::Codes::piece_of, crate::specs::Print::piece_tokens))]
fn code_special(
    codes: &mut [u64],
    tables: Tables<'_>,
    rec: &[u8],
    h: Header,
    site: Site,
    body: &[u8],
    piece: u8,
)
    requires lent { Lent codes.old h rec.now }
    requires body_value { body.now ≡ body_of h rec.now site.at }
    requires codes_value { is_plain codes.old ≡ false }
    requires le_piece { 136 ≤ piece }
    ensures { Coded table_bytes rec.now codes.old codes.new (piece_tokens h rec.now site (piece_of piece)) }
{
    match piece {
        136..=138 => code_value(codes, tables, rec, h, body, piece),
        139..=140 => code_tested(codes, tables, rec, h, site, body, piece),
        141 => arguments(codes, tables, rec, h, site.range, site.at, site.written),
        142..=144 => code_named(codes, tables, rec, h, site, body, piece),
        _ => code_late(codes, tables, rec, h, site, body, piece),
    }
}

// Operand k: most are registers, memory and small numbers, which no span and no sign can change.
#[tactic(auto, unfolding(operand::specs::Operand::op_tokens))]
fn code_operand(codes: &mut [u64], tables: Tables<'_>, rec: &[u8], h: Header, body: &[u8], k: u8)
    requires { Lent codes.old h rec.now }
    ensures { Coded table_bytes rec.now codes.old codes.new (op_tokens h rec.now body.now k) }
{
    let kind = op_kind(body, k);
    if kind == 0 {
        return code_register(codes, tables, op_register(body, k));
    }
    if kind == 1 {
        return mem(codes, tables, rec, h, body, true);
    }
    let number = op_number(body, k);
    if (3 <= kind) & (kind <= 10) & (number < 4096) {
        return code_num(codes, false, number);
    }
    op(codes, tables, rec, h, body, k)
}

// The row of a form of an instruction's own line: words and operands are most of its pieces, so they are asked for here.
pub fn code_row(
    codes: &mut [u64],
    tables: Tables<'_>,
    rec: &[u8],
    h: Header,
    rows: Rows<'_>,
    site: Site,
    body: &[u8],
    form: u8,
)
    requires lent { Lent codes.old h rec.now }
    requires body_value { body.now ≡ body_of h rec.now site.at }
    requires codes_value { is_plain codes.old ≡ false }
    requires form_bound { form < 48 }
    ensures { Coded table_bytes rec.now codes.old codes.new (pieces_tokens h rec.now site (map piece_of (codes_of form))) }
{
    let pieces = rows.codes(form);
    for &piece in pieces {
        if piece < 102 {
            code_word(codes, tables, piece);
        } else {
            if piece < 136 {
                code_operand(codes, tables, rec, h, body, piece.saturating_sub(128));
            } else {
                code_special(codes, tables, rec, h, site, body, piece);
            }
        }
    }
}

// A piece that is no word.
#[tactic(auto, unfolding(crate::specs::Codes::piece_of, crate::specs::Print::piece_tokens))]
fn code_piece(
    codes: &mut [u64],
    tables: Tables<'_>,
    rec: &[u8],
    h: Header,
    site: Site,
    body: &[u8],
    piece: u8,
)
    requires lent { Lent codes.old h rec.now }
    requires body_value { body.now ≡ body_of h rec.now site.at }
    requires codes_value { is_plain codes.old ≡ false }
    requires le_piece { 102 ≤ piece }
    ensures { Coded table_bytes rec.now codes.old codes.new (piece_tokens h rec.now site (piece_of piece)) }
{
    if piece < 136 {
        return op(codes, tables, rec, h, body, piece.saturating_sub(128));
    }
    code_special(codes, tables, rec, h, site, body, piece)
}

// The row of a form of any other line. Two loops keep the rare pieces out of both.
pub fn code_frame(
    codes: &mut [u64],
    tables: Tables<'_>,
    rec: &[u8],
    h: Header,
    rows: Rows<'_>,
    site: Site,
    body: &[u8],
    form: u8,
)
    requires lent { Lent codes.old h rec.now }
    requires body_value { body.now ≡ body_of h rec.now site.at }
    requires codes_value { is_plain codes.old ≡ false }
    requires form_bound { form < 48 }
    ensures { Coded table_bytes rec.now codes.old codes.new (pieces_tokens h rec.now site (map piece_of (codes_of form))) }
{
    let pieces = rows.codes(form);
    for &piece in pieces {
        if piece < 102 {
            code_word(codes, tables, piece);
        } else {
            code_piece(codes, tables, rec, h, site, body, piece);
        }
    }
}
