// The call that only sizes a listing.
ghost use Rattle.std.specs.Prelude.{map, ◌≡◌};
ghost use Rattle.std.specs.Prelude.{Ok};
ghost use Rattle.lists.specs.Question.{Answers};
ghost use Rattle.rows.specs.Lists.{sizes_of};
ghost use Rattle.operand.specs.Lent.{Rising};
ghost use Rattle.record.specs.Asked.{first_no};
ghost use Rattle.flow.specs.Rows.{block_rows};
ghost use Rattle.line.specs.Fits.{Fits};
ghost use Rattle.line.specs.Lines.{line_in};
ghost use Rattle.line.specs.Print.{printed};
ghost use Rattle.pseudo.specs.Listed.{plan_lists};
ghost use Rattle.pseudo.specs.Called.{Accepted, sizes, LooksCounted};

use crate::answered::{Answered, with_looks};
use crate::coding::code_plan;
use codes::tables::{Tables, token_table};
use flow::planned::plan_record;
use flow::rows::block_rows;
use line::rows::{Rows, row_table};
use lists::parts::part;
use lists::question::Question;
use lists::reads::element_or;
use record::asked::record;
use record::header::Header;
use record::layout::size as wide;
use rows::answer::Sizes;

// How much a plan's lines have: their codes tell, in a list with room for none of them.
fn size_plan(
    tables: Tables<'_>,
    rec: &[u8],
    h: Header,
    rows: Rows<'_>,
    blocks: &[u16],
    range: u16,
    plan: &[u64],
) -> Sizes
    requires rising { Rising h rec.now }
    requires blocks_value { blocks.now ≡ block_rows h rec.now }
    requires fits { Fits (printed h rec.now range 0 (map line_in plan.now)) }
    ensures { result ≡ sizes_of (plan_lists h rec.now range (map line_in plan.now)) }
{
    let mut codes = [0u64; 5];
    code_plan(&mut codes, tables, rec, h, rows, blocks, range, plan)
}

// How much the listing of a range of an accepted record has, and how many edges are read for it, from the tables and the blocks' rows.
fn size_range(
    tables: Tables<'_>,
    rec: &[u8],
    h: Header,
    rows: Rows<'_>,
    blocks: &[u16],
    from: u16,
    to: u16,
) -> Answered<Question>
    requires rising { Rising h rec.now }
    requires blocks_value { blocks.now ≡ block_rows h rec.now }
    requires accepted { Accepted rec.now from to h }
    ensures sizes { result.answer ≡ Ok (sizes rec.now from to) }
    ensures looks { LooksCounted rec.now from to result.answer result.looks }
{
    let mut made = [0u64; 900];
    let planned = plan_record(tables.isa(), rec, h, blocks, from, to, &mut made);
    let plan = part(&made, 0, planned.next);
    let range = element_or(blocks, 8 * wide(from), 0);
    let sizes = size_plan(tables, rec, h, rows, blocks, range, plan);
    with_looks(Ok(sizes), planned.looks)
}

fn size_accepted(rec: &[u8], h: Header, from: u16, to: u16) -> Answered<Question>
    requires { Accepted rec.now from to h }
    ensures sizes { result.answer ≡ Ok (sizes rec.now from to) }
    ensures looks { LooksCounted rec.now from to result.answer result.looks }
{
    let made = token_table();
    let tables = Tables { bytes: &made };
    let row = row_table();
    let rows = Rows { bytes: &row };
    let mut block = [0u16; 1600];
    block_rows(rec, h, &mut block);
    let blocks = part(&block, 0, 8 * wide(h.blocks));
    size_range(tables, rec, h, rows, blocks, from, to)
}

// The sizes and the looks of the listing of the blocks from `from` up to `to`, or the number of the first question before 12 that gets a no.
// Nothing is demanded of the caller.
pub fn size(rec: &[u8], from: usize, to: usize) -> Answered<Question>
    ensures sizes { Answers (first_no rec.now from to) (sizes rec.now from to) result.answer }
    ensures looks { LooksCounted rec.now from to result.answer result.looks }
{
    match record(rec, from, to) {
        Err(q) => with_looks(Err(q), 0),
        Ok(h) => size_accepted(rec, h, from as u16, to as u16),
    }
}
