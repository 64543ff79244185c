// The codes of a plan's lines: they tell the sizes before any lent list is touched.
ghost use Rattle.std.specs.Prelude.{map, ◌≡◌};
ghost use Rattle.codes.specs.Tables.{table_bytes};
ghost use Rattle.rows.specs.Lists.{sizes_of};
ghost use Rattle.operand.specs.Lent.{Lent};
ghost use Rattle.flow.specs.Rows.{block_rows};
ghost use Rattle.line.specs.Fits.{Fits};
ghost use Rattle.line.specs.Lines.{line_in};
ghost use Rattle.line.specs.Print.{printed};
ghost use Rattle.pseudo.specs.Listed.{plan_lists};
ghost use Rattle.pseudo.specs.Coded.{HoldsLines};

use codes::state::start;
use codes::tables::Tables;
use line::coded::code_lines;
use line::rows::Rows;
use record::header::Header;
use rows::answer::Sizes;

// Codes the lines, and answers how much they have, whether or not the list has room for all codes.
pub fn code_plan(
    codes: &mut [u64],
    tables: Tables<'_>,
    rec: &[u8],
    h: Header,
    rows: Rows<'_>,
    blocks: &[u16],
    range: u16,
    plan: &[u64],
) -> Sizes
    requires lent { Lent codes.old h rec.now }
    requires blocks_value { blocks.now ≡ block_rows h rec.now }
    requires fits { Fits (printed h rec.now range 0 (map line_in plan.now)) }
    ensures sizes { result ≡ sizes_of (plan_lists h rec.now range (map line_in plan.now)) }
    ensures codes { HoldsLines table_bytes rec.now codes.new (printed h rec.now range 0 (map line_in plan.now)) }
{
    start(codes);
    code_lines(codes, tables, rec, h, rows, blocks, range, 0, plan);
    Sizes {
        text: codes[0] as usize,
        tokens: codes[1] as usize,
        lines: plan.len(),
    }
}
