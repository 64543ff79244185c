// The arguments of a call, and the registers written since the last one.
ghost use Rattle.std.specs.Prelude.{◌≡◌, false, [], ◌∷◌, List, ltb, ◌-◌, ℕ, ◌≤◌, length};
ghost use Rattle.lists.specs.Choice.{pick};
ghost use Rattle.x86.specs.Mnemonics.{push, call};
ghost use Rattle.x86.specs.Conventions.{argument_register};
ghost use Rattle.operand.specs.Memory.{register_token};
ghost use Rattle.record.specs.Layout.{bodies_of};
ghost use Rattle.operand.specs.Operand.{op_tokens};
ghost use Rattle.expressions.specs.Arguments.{comma_if, is_unskipped, register_arguments, pushes_back, pushed, argument_tokens, written_after};
ghost use Rattle.expressions.specs.declared.arguments.PushPart.TheVariants.{Call, Push, Neither};
ghost use Rattle.codes.specs.Coded.{Coded};
ghost use Rattle.codes.specs.Tables.{table_bytes};
ghost use Rattle.operand.specs.Lent.{Lent};

use codes::code::{code_register, code_word};
use codes::tables::Tables;
use flow::silent::is_skipped;
use lists::parts::from;
use operand::operand::op;
use record::body::{body_at, mnemonic, op_count, op_kind, op_register};
use record::header::Header;
use record::layout::bodies_at;
use tokens::words::COMMA;
use x86::conventions::{argument_count, argument_register, with_written};
use x86::registers::full_register;
use x86::table::Isa;
use x86::width::passes_registers;

// The registers written once an instruction's own line is there: a call clears the mask.
#[tactic(auto, unfolding(crate::specs::Arguments::written_after))]
pub fn written_after(isa: Isa<'_>, mask: u16, body: &[u8]) -> u16
    ensures { result ≡ written_after mask body.now }
{
    if mnemonic(body) == 23 {
        return 0;
    }
    if (0 < op_count(body)) & (op_kind(body, 0) == 0) {
        return with_written(mask, full_register(isa, op_register(body, 0)));
    }
    mask
}

// What an instruction is to the pushes of a call behind it: a call that ends them, one of them, or neither, as most are.
#[derive(Clone, Copy, PartialEq, Eq)]
enum PushPart {
    Call,
    Push,
    Neither,
}

#[tactic(auto, unfolding(crate::specs::Arguments::is_unskipped))]
fn push_part(isa: Isa<'_>, bodies: &[u8], bits: u16, frame: u16, i: u16) -> PushPart
    ensures { result ≡ pick (is_unskipped bits frame bodies.now call i) Call (pick (is_unskipped bits frame bodies.now push i) Push Neither) }
{
    let body = body_at(bodies, i);
    let m = mnemonic(body);
    if (m == 23) | (m == 21) {
        if !is_skipped(isa, bits, frame, body) {
            return if m == 23 {
                PushPart::Call
            } else {
                PushPart::Push
            };
        }
    }
    PushPart::Neither
}

// Argument register k, behind a comma unless it is the first.
fn code_nth(codes: &mut [u64], tables: Tables<'_>, convention: u16, k: u8)
    requires { 5 ≤ length codes.old }
    ensures { (s : List ℕ) → Coded table_bytes s codes.old codes.new (comma_if (ltb 0 k) (register_token (argument_register convention k) ∷ [])) }
{
    let r = argument_register(convention, k);
    if 0 < k {
        code_word(codes, tables, COMMA);
        return code_register(codes, tables, r);
    }
    code_register(codes, tables, r)
}

// With bits 64: the convention's registers up to the last one written.
fn register_arguments(codes: &mut [u64], tables: Tables<'_>, convention: u16, mask: u16)
    requires { 5 ≤ length codes.old }
    ensures { (s : List ℕ) → Coded table_bytes s codes.old codes.new (register_arguments convention mask) }
{
    let n = argument_count(convention, mask);
    for k in 0..n {
        code_nth(codes, tables, convention, k);
    }
}

// Operand i of a body, behind a comma if one is wanted.
pub fn code_listed(
    codes: &mut [u64],
    tables: Tables<'_>,
    rec: &[u8],
    h: Header,
    body: &[u8],
    i: u8,
    comma: bool,
)
    requires { Lent codes.old h rec.now }
    ensures { Coded table_bytes rec.now codes.old codes.new (comma_if comma (op_tokens h rec.now body.now i)) }
{
    if comma {
        code_word(codes, tables, COMMA);
        return op(codes, tables, rec, h, body, i);
    }
    op(codes, tables, rec, h, body, i)
}

// The pushes since the last call that is not silent, the last one first.
fn pushed_arguments(
    codes: &mut [u64],
    tables: Tables<'_>,
    rec: &[u8],
    h: Header,
    first: u16,
    i: u16,
)
    requires { Lent codes.old h rec.now }
    ensures { Coded table_bytes rec.now codes.old codes.new (pushed h rec.now false (pushes_back h.bits h.frame (bodies_of h rec.now) first (i - first))) }
{
    let isa = tables.isa();
    let bodies = from(rec, bodies_at(h));
    let bits = h.bits;
    let frame = h.frame;
    let mut comma = false;
    for j in (first..i).rev() {
        match push_part(isa, bodies, bits, frame, j) {
            PushPart::Call => return,
            PushPart::Push => {
                code_listed(codes, tables, rec, h, body_at(bodies, j), 0, comma);
                comma = true;
            }
            PushPart::Neither => {}
        }
    }
}

// The arguments at instruction i of a range whose first instruction is `first`.
#[tactic(auto, unfolding(crate::specs::Arguments::argument_tokens))]
pub fn arguments(
    codes: &mut [u64],
    tables: Tables<'_>,
    rec: &[u8],
    h: Header,
    first: u16,
    i: u16,
    mask: u16,
)
    requires { Lent codes.old h rec.now }
    ensures { Coded table_bytes rec.now codes.old codes.new (argument_tokens h rec.now first i mask) }
{
    if passes_registers(h.bits) {
        return register_arguments(codes, tables, h.convention, mask);
    }
    pushed_arguments(codes, tables, rec, h, first, i)
}
