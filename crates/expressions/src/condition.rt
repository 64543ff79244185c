// Conditions: the nearest flag writer before the tested instruction, in the same block.
ghost use Rattle.std.specs.Prelude.{◌≡◌, true, false, [], ◌∷◌, ◌++◌, List, ◌-◌, ◌<◌, ℕ, ◌≤◌, length};
ghost use Rattle.tokens.specs.Token.{punct};
ghost use Rattle.x86.specs.Conditions.{prints_unsigned};
ghost use Rattle.operand.specs.Expr.{wrap_if};
ghost use Rattle.operand.specs.Memory.{number};
ghost use Rattle.operand.specs.Operand.{op_tokens};
ghost use Rattle.expressions.specs.Condition.{body_of, flag_writer, flags_word, operator, unsigned_if, after_cmp, tested, after_test, after_other, after_writer, condition_tokens};
ghost use Rattle.codes.specs.Coded.{Coded};
ghost use Rattle.codes.specs.Tables.{table_bytes};
ghost use Rattle.operand.specs.Lent.{Lent};

use codes::code::{code_num, code_word};
use codes::tables::Tables;
use lists::parts::from;
use operand::alike::alike;
use operand::operand::op;
use record::body::{body_at, mnemonic};
use record::header::Header;
use record::layout::bodies_at;
use tokens::words::{AND, CLOSE, EQUAL, OPEN, UNSIGNED};
use x86::conditions::{
    prints_unsigned, relation_after_cmp, relation_after_other, relation_after_test,
};
use x86::mnemonics::writes_flags;
use x86::table::Isa;

// The body of instruction i.
pub fn body_of(rec: &[u8], h: Header, i: u16) -> &[u8]
    ensures { result.now ≡ body_of h rec.now i }
{
    body_at(from(rec, bodies_at(h)), i)
}

// The last instruction before i, from `first` on, that writes flags.
fn flag_writer(isa: Isa<'_>, bodies: &[u8], first: u16, i: u16) -> Option<u16>
    ensures { result ≡ flag_writer bodies.now first (i - first) }
{
    for j in (first..i).rev() {
        if writes_flags(isa, mnemonic(body_at(bodies, j))) {
            return Some(j);
        }
    }
    None
}

// `__flags_` and the condition's name; for a number that names no condition an empty text.
#[tactic(auto, unfolding(tokens::specs::Words::word_token, tokens::specs::Words::words))]
fn code_flags(codes: &mut [u64], tables: Tables<'_>, cc: u8)
    requires { 5 ≤ length codes.old }
    ensures { (s : List ℕ) → Coded table_bytes s codes.old codes.new (flags_word cc ∷ []) }
{
    if (0 < cc) & (cc < 17) {
        return code_word(codes, tables, 75 + cc);
    }
    code_word(codes, tables, 255)
}

// An operator, and 0 behind it.
fn code_against(codes: &mut [u64], tables: Tables<'_>, relation: u8)
    requires in_bounds { 5 ≤ length codes.old }
    requires relation_bound { relation < 6 }
    ensures { (s : List ℕ) → Coded table_bytes s codes.old codes.new (operator relation ∷ number false 0 ∷ []) }
{
    code_word(codes, tables, EQUAL + relation);
    code_num(codes, false, 0)
}

// The first operand, as unsigned where the rule reads unsigned.
fn code_unsigned(codes: &mut [u64], tables: Tables<'_>, rec: &[u8], h: Header, body: &[u8], cc: u8)
    requires { Lent codes.old h rec.now }
    ensures { Coded table_bytes rec.now codes.old codes.new (unsigned_if (prints_unsigned cc) (op_tokens h rec.now body.now 0)) }
{
    if prints_unsigned(tables.isa(), cc) {
        code_word(codes, tables, UNSIGNED);
        return op(codes, tables, rec, h, body, 0);
    }
    op(codes, tables, rec, h, body, 0)
}

// A relation of 6 is none: it is a byte of the fixed table, and an `Option` of it is no plainer.
fn after_cmp(codes: &mut [u64], tables: Tables<'_>, rec: &[u8], h: Header, body: &[u8], cc: u8)
    requires { Lent codes.old h rec.now }
    ensures { Coded table_bytes rec.now codes.old codes.new (after_cmp h rec.now body.now cc) }
{
    let r = relation_after_cmp(tables.isa(), cc);
    if r < 6 {
        code_unsigned(codes, tables, rec, h, body, cc);
        code_word(codes, tables, EQUAL + r);
        return op(codes, tables, rec, h, body, 1);
    }
    code_flags(codes, tables, cc)
}

// After the other writers; BT and IMUL leave no flags that tell of the first operand.
fn after_other(codes: &mut [u64], tables: Tables<'_>, rec: &[u8], h: Header, body: &[u8], cc: u8)
    requires { Lent codes.old h rec.now }
    ensures { Coded table_bytes rec.now codes.old codes.new (after_other h rec.now body.now cc) }
{
    let m = mnemonic(body);
    if (m == 40) | (m == 20) {
        return code_flags(codes, tables, cc);
    }
    let r = relation_after_other(tables.isa(), cc);
    if r < 6 {
        op(codes, tables, rec, h, body, 0);
        return code_against(codes, tables, r);
    }
    code_flags(codes, tables, cc)
}

// Both operands of TEST, with `&` between.
fn code_and(codes: &mut [u64], tables: Tables<'_>, rec: &[u8], h: Header, body: &[u8])
    requires { Lent codes.old h rec.now }
    ensures { Coded table_bytes rec.now codes.old codes.new (op_tokens h rec.now body.now 0 ++ (punct " & " ∷ op_tokens h rec.now body.now 1)) }
{
    op(codes, tables, rec, h, body, 0);
    code_word(codes, tables, AND);
    op(codes, tables, rec, h, body, 1)
}

// The same in parentheses.
fn code_both(codes: &mut [u64], tables: Tables<'_>, rec: &[u8], h: Header, body: &[u8])
    requires { Lent codes.old h rec.now }
    ensures { Coded table_bytes rec.now codes.old codes.new (wrap_if true (op_tokens h rec.now body.now 0 ++ (punct " & " ∷ op_tokens h rec.now body.now 1))) }
{
    code_word(codes, tables, OPEN);
    code_and(codes, tables, rec, h, body);
    code_word(codes, tables, CLOSE)
}

// What TEST compares with 0.
fn code_tested(codes: &mut [u64], tables: Tables<'_>, rec: &[u8], h: Header, body: &[u8])
    requires { Lent codes.old h rec.now }
    ensures { Coded table_bytes rec.now codes.old codes.new (tested h rec.now body.now) }
{
    if alike(tables, rec, h, body) {
        return op(codes, tables, rec, h, body, 0);
    }
    code_both(codes, tables, rec, h, body)
}

fn after_test(codes: &mut [u64], tables: Tables<'_>, rec: &[u8], h: Header, body: &[u8], cc: u8)
    requires { Lent codes.old h rec.now }
    ensures { Coded table_bytes rec.now codes.old codes.new (after_test h rec.now body.now cc) }
{
    let r = relation_after_test(tables.isa(), cc);
    if r < 6 {
        code_tested(codes, tables, rec, h, body);
        return code_against(codes, tables, r);
    }
    code_flags(codes, tables, cc)
}

// A condition after the flag writer with this body.
#[tactic(auto, unfolding(crate::specs::Condition::after_writer))]
fn after_writer(codes: &mut [u64], tables: Tables<'_>, rec: &[u8], h: Header, body: &[u8], cc: u8)
    requires { Lent codes.old h rec.now }
    ensures { Coded table_bytes rec.now codes.old codes.new (after_writer h rec.now body.now cc) }
{
    let m = mnemonic(body);
    if m == 38 {
        return after_cmp(codes, tables, rec, h, body, cc);
    }
    if m == 39 {
        return after_test(codes, tables, rec, h, body, cc);
    }
    after_other(codes, tables, rec, h, body, cc)
}

// Condition cc tested by instruction i of the block whose first instruction is `first`.
#[tactic(auto, unfolding(crate::specs::Condition::condition_tokens))]
pub fn condition(
    codes: &mut [u64],
    tables: Tables<'_>,
    rec: &[u8],
    h: Header,
    first: u16,
    i: u16,
    cc: u8,
)
    requires { Lent codes.old h rec.now }
    ensures { Coded table_bytes rec.now codes.old codes.new (condition_tokens h rec.now first i cc) }
{
    let bodies = from(rec, bodies_at(h));
    match flag_writer(tables.isa(), bodies, first, i) {
        Some(p) => after_writer(codes, tables, rec, h, body_at(bodies, p), cc),
        None => code_flags(codes, tables, cc),
    }
}
