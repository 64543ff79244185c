// `__asm` as token codes: an instruction's name and operands, all Text.
ghost use Rattle.std.specs.Prelude.{false, [], ◌∷◌, ◌≡◌, ◌≤◌, ◌+◌, ◌*◌, length};
ghost use Rattle.codes.specs.Coded.{is_plain, Coded};
ghost use Rattle.codes.specs.Tables.{table_bytes};
ghost use Rattle.tokens.specs.Token.{token};
ghost use Rattle.record.specs.Body.{operand_count};
ghost use Rattle.record.specs.Layout.{bodies_at};
ghost use Rattle.operand.specs.Lent.{Lent};
ghost use Rattle.expressions.specs.Condition.{body_of};
ghost use Rattle.line.specs.Print.{insn_name, name_length, assembled, assembly_tokens};

use codes::code::{code_mnemonic, code_part, code_word};
use codes::state::set_plain;
use codes::tables::Tables;
use expressions::arguments::code_listed;
use lists::parts::from;
use lists::reads::u8_at;
use record::body::{mnemonic, op_count};
use record::header::Header;
use record::layout::bodies_at;
use tokens::words::SPACE;

// How many bytes a name has before its zeros.
fn name_length(name: &[u8]) -> usize
    ensures { result ≡ name_length name.now }
{
    for k in 0..24 {
        if u8_at(name, k) == 0 {
            return k;
        }
    }
    24
}

// Where the name of instruction i stands in the record.
fn name_place(h: Header, i: u16) -> u32
    ensures { result ≡ bodies_at h + 92 * i + 68 }
{
    (bodies_at(h) + 92 * i as usize + 68) as u32
}

// The name of instruction i: its mnemonic's, or the record's.
fn code_name(codes: &mut [u64], tables: Tables<'_>, rec: &[u8], h: Header, i: u16, body: &[u8])
    requires in_bounds { 5 ≤ length codes.old }
    requires body_value { body.now ≡ body_of h rec.now i }
    ensures { Coded table_bytes rec.now codes.old codes.new (token 0 (insn_name body.now) ∷ []) }
{
    let m = mnemonic(body);
    if m == 0 {
        let n = name_length(from(body, 68));
        return code_part(codes, rec, 0, name_place(h, i), n as u16);
    }
    code_mnemonic(codes, tables, m)
}

// The operands with commas between.
fn code_operands(codes: &mut [u64], tables: Tables<'_>, rec: &[u8], h: Header, body: &[u8])
    requires { Lent codes.old h rec.now }
    ensures { Coded table_bytes rec.now codes.old codes.new (assembled h rec.now body.now false 0 (operand_count body.now)) }
{
    let n = op_count(body);
    for i in 0..n {
        code_listed(codes, tables, rec, h, body, i, 0 < i);
    }
}

// All of instruction i, as Text.
pub fn assembly(codes: &mut [u64], tables: Tables<'_>, rec: &[u8], h: Header, i: u16, body: &[u8])
    requires lent { Lent codes.old h rec.now }
    requires body_value { body.now ≡ body_of h rec.now i }
    requires codes_value { is_plain codes.old ≡ false }
    ensures { Coded table_bytes rec.now codes.old codes.new (assembly_tokens h rec.now body.now) }
{
    set_plain(codes, true);
    code_name(codes, tables, rec, h, i, body);
    code_word(codes, tables, SPACE);
    code_operands(codes, tables, rec, h, body);
    set_plain(codes, false)
}
