// Planned lines as token codes: each by its number in the plan, with the registers written before it.
ghost use Rattle.std.specs.Prelude.{false, [], ◌∷◌, map, ◌≡◌};
ghost use Rattle.codes.specs.Coded.{is_plain, Coded};
ghost use Rattle.codes.specs.Lines.{AtLine, CodedLines};
ghost use Rattle.codes.specs.Tables.{table_bytes};
ghost use Rattle.operand.specs.Lent.{Lent};
ghost use Rattle.flow.specs.Rows.{block_rows};
ghost use Rattle.line.specs.Codes.{form_number, row_bytes};
ghost use Rattle.line.specs.Forms.{form_of};
ghost use Rattle.line.specs.Lines.{what_at, line_in};
ghost use Rattle.line.specs.Print.{line_tokens, mask_after, printed};

use crate::forms::{insn_form, return_form, returns_value};
use crate::pieces::{Site, code_frame, code_row};
use crate::rows::Rows;
use codes::state::put_end;
use codes::tables::Tables;
use expressions::arguments::written_after;
use expressions::condition::body_of;
use lists::parts::from;
use lists::reads::element_or;
use record::body::{body_at, mnemonic};
use record::header::Header;
use record::layout::{bodies_at, size};
use structure::codes::{instruction_of, place_of_line, what_of};
use x86::table::Isa;

// The form of a line of instruction i, in the block whose first instruction is `first`: most mnemonics decide it alone, and the table has
// it. Only a ret asks whether a value is left.
fn line_form(
    isa: Isa<'_>,
    rows: Rows<'_>,
    rec: &[u8],
    h: Header,
    what: u8,
    first: u16,
    i: u16,
) -> u8
    ensures { result ≡ form_number (form_of h rec.now (what_at what) first i) }
{
    if what < 8 {
        return 40 + what;
    }
    let bodies = from(rec, bodies_at(h));
    let body = body_at(bodies, i);
    let m = mnemonic(body);
    let form = rows.bytes[768 + m as usize];
    if form < 48 {
        return form;
    }
    if m == 24 {
        return return_form(returns_value(isa, bodies, first, i));
    }
    insn_form(isa, body)
}

// The registers written behind a line: only an instruction's own line changes them.
pub fn mask_after(tables: Tables<'_>, rec: &[u8], h: Header, mask: u16, code: u64) -> u16
    ensures { result ≡ mask_after h rec.now mask (line_in code).what (line_in code).at }
{
    if what_of(code) < 8 {
        return mask;
    }
    written_after(tables.isa(), mask, body_of(rec, h, instruction_of(code)))
}

// The tokens of a planned line, in a range whose first instruction is `range`.
fn code_tokens(
    codes: &mut [u64],
    tables: Tables<'_>,
    rec: &[u8],
    h: Header,
    rows: Rows<'_>,
    blocks: &[u16],
    range: u16,
    mask: u16,
    code: u64,
)
    requires lent { Lent codes.old h rec.now }
    requires blocks_value { blocks.now ≡ block_rows h rec.now }
    requires codes_value { is_plain codes.old ≡ false }
    ensures { Coded table_bytes rec.now codes.old codes.new (line_tokens h rec.now range mask (line_in code)) }
{
    let place = place_of_line(code);
    let i = instruction_of(code);
    let first = element_or(blocks, 8 * size(place), 0);
    let what = what_of(code);
    let form = line_form(tables.isa(), rows, rec, h, what, first, i);
    let site = Site {
        at: i,
        first: first,
        range: range,
        place: place,
        written: mask,
    };
    let body = body_of(rec, h, i);
    if what < 8 {
        return code_frame(codes, tables, rec, h, rows, site, body, form);
    }
    code_row(codes, tables, rec, h, rows, site, body, form)
}

// The same, and the line's end.
fn code_line(
    codes: &mut [u64],
    tables: Tables<'_>,
    rec: &[u8],
    h: Header,
    rows: Rows<'_>,
    blocks: &[u16],
    range: u16,
    mask: u16,
    code: u64,
)
    requires lent { Lent codes.old h rec.now }
    requires blocks_value { blocks.now ≡ block_rows h rec.now }
    requires at_line { AtLine codes.old }
    ensures { CodedLines table_bytes rec.now codes.old codes.new (line_tokens h rec.now range mask (line_in code) ∷ []) }
{
    code_tokens(codes, tables, rec, h, rows, blocks, range, mask, code);
    put_end(codes)
}

// The lines of a plan, with the registers written before the first.
pub fn code_lines(
    codes: &mut [u64],
    tables: Tables<'_>,
    rec: &[u8],
    h: Header,
    rows: Rows<'_>,
    blocks: &[u16],
    range: u16,
    written: u16,
    plan: &[u64],
)
    requires lent { Lent codes.old h rec.now }
    requires blocks_value { blocks.now ≡ block_rows h rec.now }
    requires at_line { AtLine codes.old }
    ensures { CodedLines table_bytes rec.now codes.old codes.new (printed h rec.now range written (map line_in plan.now)) }
{
    let mut mask: u16 = written;
    for &code in plan {
        code_line(codes, tables, rec, h, rows, blocks, range, mask, code);
        mask = mask_after(tables, rec, h, mask, code);
    }
}
