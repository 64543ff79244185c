// TEST's "operands that print alike": both are coded, and their texts compared with no character stored.
ghost use Rattle.std.specs.Prelude.{◌≡◌, ◌≤◌, length};
ghost use Rattle.x86.specs.Words.{same_word};
ghost use Rattle.tokens.specs.Listing.{text_of};
ghost use Rattle.operand.specs.Operand.{op_tokens};
ghost use Rattle.operand.specs.Alike.{alike};
ghost use Rattle.operand.specs.Lent.{Rising};
ghost use Rattle.codes.specs.Tables.{table_bytes};
ghost use Rattle.operand.specs.Lent.{Lent};
ghost use Rattle.operand.specs.Alone.{Alone};

use crate::operand::op;
use codes::read::{codes_of, same_texts};
use codes::state::start;
use codes::tables::Tables;
use lists::reads::element_or;
use record::header::Header;

// Operand i alone, from the first code on.
fn code_alone(codes: &mut [u64], tables: Tables<'_>, rec: &[u8], h: Header, body: &[u8], i: u8)
    requires lent { Lent codes.old h rec.now }
    requires in_bounds { 33 ≤ length codes.old }
    ensures { Alone table_bytes rec.now codes.new (text_of (op_tokens h rec.now body.now i)) }
{
    start(codes);
    op(codes, tables, rec, h, body, i)
}

// Whether the first two operands of a body print alike: each has at most 28 codes.
#[tactic(auto, unfolding(crate::specs::Alike::alike))]
pub fn alike(tables: Tables<'_>, rec: &[u8], h: Header, body: &[u8]) -> bool
    requires { Rising h rec.now }
    ensures { result ≡ alike h rec.now body.now }
{
    let mut first = [0u64; 33];
    let mut second = [0u64; 33];
    code_alone(&mut first, tables, rec, h, body, 0);
    code_alone(&mut second, tables, rec, h, body, 1);
    let n = element_or(&first, 0, 0);
    if n != element_or(&second, 0, 0) {
        return false;
    }
    let a = codes_of(&first);
    let b = codes_of(&second);
    if a == b {
        return true;
    }
    same_texts(tables.bytes, rec, a, b, n as usize)
}
