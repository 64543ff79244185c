// The call that lists a range.
ghost use Rattle.std.specs.Prelude.{map, ◌≡◌, ◌+◌, ◌*◌, ◌≤◌, length};
ghost use Rattle.rows.specs.Lists.{lists_of};
ghost use Rattle.operand.specs.Lent.{Rising, Lent};
ghost use Rattle.flow.specs.Rows.{block_rows};
ghost use Rattle.line.specs.Lines.{line_in};
ghost use Rattle.line.specs.Print.{printed};
ghost use Rattle.line.specs.Fits.{Fits};
ghost use Rattle.pseudo.specs.Marks.{Indented};
ghost use Rattle.pseudo.specs.Called.{PlanListed, Accepted, Called, LooksCounted};
ghost use Rattle.pseudo.specs.Promise.{Promise};

use crate::answered::{Answered, with_looks};
use crate::coding::code_plan;
use crate::marks::put_marks;
use crate::writing::write_plan;
use codes::tables::{Tables, token_table};
use flow::planned::plan_record;
use flow::rows::block_rows;
use line::rows::{Rows, row_table};
use lists::parts::part;
use lists::question::Question;
use lists::reads::element_or;
use record::asked::record;
use record::header::Header;
use record::layout::size;
use rows::answer::{Rooms, Sizes, ask_room};

// The listing of a plan by way of its codes, if the lists have room for it: no list but that of the codes is touched before they are asked.
fn list_coded(
    text: &mut [u8],
    ends: &mut [u32],
    kinds: &mut [u8],
    addresses: &mut [u64],
    marks: &mut [u16],
    places: &mut [u16],
    lines: &mut [u32],
    codes: &mut [u64],
    tables: Tables<'_>,
    rec: &[u8],
    h: Header,
    rows: Rows<'_>,
    blocks: &[u16],
    range: u16,
    plan: &[u64],
) -> Result<Sizes, Question>
    requires lent { Lent codes.old h rec.now }
    requires blocks_value { blocks.now ≡ block_rows h rec.now }
    requires fits { Fits (printed h rec.now range 0 (map line_in plan.now)) }
    requires indented { Indented plan.now }
    ensures { PlanListed h rec.now range (map line_in plan.now)
        (lists_of text.old ends.old kinds.old addresses.old marks.old places.old lines.old)
        (lists_of text.new ends.new kinds.new addresses.new marks.new places.new lines.new) result }
{
    let sizes = code_plan(codes, tables, rec, h, rows, blocks, range, plan);
    let rooms = Rooms {
        text: text.len(),
        ends: ends.len(),
        kinds: kinds.len(),
        addresses: addresses.len(),
        marks: marks.len(),
        places: places.len(),
        lines: lines.len(),
    };
    ask_room(sizes, rooms)?;
    write_plan(
        text, ends, kinds, lines, codes, tables, rec, h, rows, blocks, range, plan,
    );
    put_marks(addresses, marks, places, rec, h, plan);
    Ok(sizes)
}

// The listing of a plan. The list of codes has room for most listings of so many lines; a shorter one costs less to make.
fn list_plan(
    text: &mut [u8],
    ends: &mut [u32],
    kinds: &mut [u8],
    addresses: &mut [u64],
    marks: &mut [u16],
    places: &mut [u16],
    lines: &mut [u32],
    tables: Tables<'_>,
    rec: &[u8],
    h: Header,
    rows: Rows<'_>,
    blocks: &[u16],
    range: u16,
    plan: &[u64],
) -> Result<Sizes, Question>
    requires rising { Rising h rec.now }
    requires blocks_value { blocks.now ≡ block_rows h rec.now }
    requires fits { Fits (printed h rec.now range 0 (map line_in plan.now)) }
    requires indented { Indented plan.now }
    ensures { PlanListed h rec.now range (map line_in plan.now)
        (lists_of text.old ends.old kinds.old addresses.old marks.old places.old lines.old)
        (lists_of text.new ends.new kinds.new addresses.new marks.new places.new lines.new) result }
{
    if plan.len() <= 200 {
        let mut codes = [0u64; 1536];
        return list_coded(
            text, ends, kinds, addresses, marks, places, lines, &mut codes, tables, rec, h, rows,
            blocks, range, plan,
        );
    }
    if plan.len() <= 288 {
        let mut codes = [0u64; 2048];
        return list_coded(
            text, ends, kinds, addresses, marks, places, lines, &mut codes, tables, rec, h, rows,
            blocks, range, plan,
        );
    }
    let mut codes = [0u64; 4096];
    list_coded(
        text, ends, kinds, addresses, marks, places, lines, &mut codes, tables, rec, h, rows,
        blocks, range, plan,
    )
}

// The listing of a range of an accepted record, from the tables and the blocks' rows; the plan is made in a lent list.
fn list_planned(
    text: &mut [u8],
    ends: &mut [u32],
    kinds: &mut [u8],
    addresses: &mut [u64],
    marks: &mut [u16],
    places: &mut [u16],
    lines: &mut [u32],
    made: &mut [u64],
    tables: Tables<'_>,
    rec: &[u8],
    h: Header,
    rows: Rows<'_>,
    blocks: &[u16],
    from: u16,
    to: u16,
) -> Answered<Question>
    requires rising { Rising h rec.now }
    requires blocks_value { blocks.now ≡ block_rows h rec.now }
    requires accepted { Accepted rec.now from to h }
    requires blocks_in_bounds { h.instructions + 2 * h.blocks ≤ length made.old }
    ensures lists { Called rec.now from to
        (lists_of text.old ends.old kinds.old addresses.old marks.old places.old lines.old)
        (lists_of text.new ends.new kinds.new addresses.new marks.new places.new lines.new) result.answer }
    ensures looks { LooksCounted rec.now from to result.answer result.looks }
{
    let planned = plan_record(tables.isa(), rec, h, blocks, from, to, made);
    let plan = part(made, 0, planned.next);
    let range = element_or(blocks, 8 * size(from), 0);
    let answer = list_plan(
        text, ends, kinds, addresses, marks, places, lines, tables, rec, h, rows, blocks, range,
        plan,
    );
    with_looks(answer, planned.looks)
}

// The same, with the tables and the blocks' rows made: lists are lent for the rows and the plan.
fn list_range(
    text: &mut [u8],
    ends: &mut [u32],
    kinds: &mut [u8],
    addresses: &mut [u64],
    marks: &mut [u16],
    places: &mut [u16],
    lines: &mut [u32],
    block: &mut [u16],
    made: &mut [u64],
    rec: &[u8],
    h: Header,
    from: u16,
    to: u16,
) -> Answered<Question>
    requires accepted { Accepted rec.now from to h }
    requires blocks_in_bounds { 8 * h.blocks ≤ length block.old }
    requires blocks_in_bounds_2 { h.instructions + 2 * h.blocks ≤ length made.old }
    ensures lists { Called rec.now from to
        (lists_of text.old ends.old kinds.old addresses.old marks.old places.old lines.old)
        (lists_of text.new ends.new kinds.new addresses.new marks.new places.new lines.new) result.answer }
    ensures looks { LooksCounted rec.now from to result.answer result.looks }
{
    let table = token_table();
    let tables = Tables { bytes: &table };
    let row = row_table();
    let rows = Rows { bytes: &row };
    block_rows(rec, h, block);
    let blocks = part(block, 0, 8 * size(h.blocks));
    list_planned(
        text, ends, kinds, addresses, marks, places, lines, made, tables, rec, h, rows, blocks,
        from, to,
    )
}

// The listing of a range of an accepted record. Lists for the rows and the plan are as long as the record asks for: a shorter one costs less
// to make.
fn list_accepted(
    text: &mut [u8],
    ends: &mut [u32],
    kinds: &mut [u8],
    addresses: &mut [u64],
    marks: &mut [u16],
    places: &mut [u16],
    lines: &mut [u32],
    rec: &[u8],
    h: Header,
    from: u16,
    to: u16,
) -> Answered<Question>
    requires { Accepted rec.now from to h }
    ensures lists { Called rec.now from to
        (lists_of text.old ends.old kinds.old addresses.old marks.old places.old lines.old)
        (lists_of text.new ends.new kinds.new addresses.new marks.new places.new lines.new) result.answer }
    ensures looks { LooksCounted rec.now from to result.answer result.looks }
{
    if (h.instructions <= 288) & (h.blocks <= 60) {
        let mut block = [0u16; 480];
        let mut made = [0u64; 408];
        return list_range(
            text, ends, kinds, addresses, marks, places, lines, &mut block, &mut made, rec, h,
            from, to,
        );
    }
    let mut block = [0u16; 1600];
    let mut made = [0u64; 900];
    list_range(
        text, ends, kinds, addresses, marks, places, lines, &mut block, &mut made, rec, h, from, to,
    )
}

// Lists the blocks from `from` up to `to` of a record. Nothing is demanded of the caller.
pub fn list(
    rec: &[u8],
    from: usize,
    to: usize,
    text: &mut [u8],
    ends: &mut [u32],
    kinds: &mut [u8],
    addresses: &mut [u64],
    marks: &mut [u16],
    places: &mut [u16],
    lines: &mut [u32],
) -> Answered<Question>
    ensures { Promise rec.now from to
        (lists_of text.old ends.old kinds.old addresses.old marks.old places.old lines.old)
        (lists_of text.new ends.new kinds.new addresses.new marks.new places.new lines.new) result.answer result.looks }
{
    match record(rec, from, to) {
        Err(q) => with_looks(Err(q), 0),
        Ok(h) => list_accepted(
            text,
            ends,
            kinds,
            addresses,
            marks,
            places,
            lines,
            rec,
            h,
            from as u16,
            to as u16,
        ),
    }
}
