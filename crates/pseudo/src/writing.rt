// A plan's lines in the lent lists, which have room for them: from the list of their codes, or where it is too short line by line.
ghost use Rattle.std.specs.Prelude.{map, ◌≡◌, ◌+◌, ◌*◌, ◌≤◌, length};
ghost use Rattle.codes.specs.Lines.{of_lines};
ghost use Rattle.codes.specs.Tables.{table_bytes};
ghost use Rattle.writer.specs.Written.{page, on_page, Room};
ghost use Rattle.tokens.specs.Listing.{listing, pushes_of};
ghost use Rattle.operand.specs.Lent.{Rising};
ghost use Rattle.operand.specs.Lent.{Lent};
ghost use Rattle.flow.specs.Rows.{block_rows};
ghost use Rattle.line.specs.Fits.{Fits};
ghost use Rattle.line.specs.Lines.{line_in};
ghost use Rattle.line.specs.Print.{printed};
ghost use Rattle.pseudo.specs.Coded.{HoldsLines, Holds, Printed};

use codes::read::codes_of;
use codes::state::start;
use codes::tables::Tables;
use line::coded::{code_lines, mask_after};
use line::rows::Rows;
use record::header::Header;
use writer::write::{Cursor, write_codes, write_listing};

// Lines of a plan, coded and written at once: the list of codes has room for them.
fn write_part(
    text: &mut [u8],
    ends: &mut [u32],
    kinds: &mut [u8],
    lines: &mut [u32],
    p: Cursor,
    codes: &mut [u64],
    tables: Tables<'_>,
    rec: &[u8],
    h: Header,
    rows: Rows<'_>,
    blocks: &[u16],
    range: u16,
    mask: u16,
    plan: &[u64],
) -> Cursor
    requires lent { Lent codes.old h rec.now }
    requires blocks_value { blocks.now ≡ block_rows h rec.now }
    requires plan_in_bounds { 5 + (2 * pushes_of (printed h rec.now range mask (map line_in plan.now)) + length plan.now) ≤ length codes.old }
    requires room { Room (length text.old) (length ends.old) (length kinds.old) (length lines.old) p (of_lines (printed h rec.now range mask (map line_in plan.now))) }
    ensures { page text.new ends.new kinds.new lines.new result
        ≡ on_page (page text.old ends.old kinds.old lines.old p) (of_lines (printed h rec.now range mask (map line_in plan.now))) }
{
    start(codes);
    code_lines(codes, tables, rec, h, rows, blocks, range, mask, plan);
    write_codes(
        text,
        ends,
        kinds,
        lines,
        p,
        tables.bytes,
        rec,
        codes_of(codes),
    )
}

// The lines one by one: the list of codes has room for any one of them.
fn write_turns(
    text: &mut [u8],
    ends: &mut [u32],
    kinds: &mut [u8],
    lines: &mut [u32],
    tables: Tables<'_>,
    rec: &[u8],
    h: Header,
    rows: Rows<'_>,
    blocks: &[u16],
    range: u16,
    plan: &[u64],
)
    requires rising { Rising h rec.now }
    requires blocks_value { blocks.now ≡ block_rows h rec.now }
    requires fits { Fits (printed h rec.now range 0 (map line_in plan.now)) }
    requires holds { Holds (listing (printed h rec.now range 0 (map line_in plan.now))) text.old ends.old kinds.old lines.old }
    ensures { Printed (listing (printed h rec.now range 0 (map line_in plan.now))) text.old text.new
        ends.old ends.new kinds.old kinds.new lines.old lines.new }
{
    let mut codes = [0u64; 16384];
    let mut p = Cursor {
        text: 0,
        tokens: 0,
        lines: 0,
    };
    let mut mask: u16 = 0;
    for i in 0..plan.len() {
        p = write_part(
            text,
            ends,
            kinds,
            lines,
            p,
            &mut codes,
            tables,
            rec,
            h,
            rows,
            blocks,
            range,
            mask,
            &plan[i..i + 1],
        );
        mask = mask_after(tables, rec, h, mask, plan[i]);
    }
}

// The lines of a plan from the start of the lent lists on.
pub fn write_plan(
    text: &mut [u8],
    ends: &mut [u32],
    kinds: &mut [u8],
    lines: &mut [u32],
    codes: &[u64],
    tables: Tables<'_>,
    rec: &[u8],
    h: Header,
    rows: Rows<'_>,
    blocks: &[u16],
    range: u16,
    plan: &[u64],
)
    requires lent { Lent codes.now h rec.now }
    requires blocks_value { blocks.now ≡ block_rows h rec.now }
    requires fits { Fits (printed h rec.now range 0 (map line_in plan.now)) }
    requires holds { Holds (listing (printed h rec.now range 0 (map line_in plan.now))) text.old ends.old kinds.old lines.old }
    requires holds_lines { HoldsLines table_bytes rec.now codes.now (printed h rec.now range 0 (map line_in plan.now)) }
    ensures { Printed (listing (printed h rec.now range 0 (map line_in plan.now))) text.old text.new
        ends.old ends.new kinds.old kinds.new lines.old lines.new }
{
    if codes[2] as usize <= codes.len() - 5 {
        write_listing(text, ends, kinds, lines, tables.bytes, rec, codes_of(codes));
    } else {
        write_turns(
            text, ends, kinds, lines, tables, rec, h, rows, blocks, range, plan,
        );
    }
}
