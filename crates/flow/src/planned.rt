// The plan of a range of a record's blocks.
ghost use Rattle.std.specs.Prelude.{◌≡◌, ◌-◌, ◌*◌, ◌≤◌, length};
ghost use Rattle.structure.specs.Stored.{Stored};
ghost use Rattle.flow.specs.Rows.{block_rows};
ghost use Rattle.flow.specs.Counted.{Plannable};
ghost use Rattle.flow.specs.Planned.{record_codes, record_looks};

use crate::rows::{edge_rows, shown_rows};
use cfg::graph::Graph;
use lists::parts::{from as part_from, part};
use record::header::Header;
use record::layout::targets_at;
use structure::blocks::Written;
use structure::plan::plan;
use x86::table::Isa;

// The lines' codes from the start of the list on, with the rows of edges in a list that has room for them.
fn plan_edges(
    isa: Isa<'_>,
    rec: &[u8],
    h: Header,
    blocks: &[u16],
    edges: &mut [u16],
    from: u16,
    to: u16,
    out: &mut [u64],
) -> Written
    requires asked { Plannable h rec.now from to }
    requires rows { blocks.now ≡ block_rows h rec.now }
    requires room { 2 * h.edges ≤ length edges.old }
    ensures lines { Stored out.old 0 (record_codes h rec.now from to) result.next out.new }
    ensures looks { (result.looks ≡ record_looks h rec.now from to) × (result.looks ≤ 5 * (to - from) * h.edges) }
{
    let mut shown = [0u8; 500];
    edge_rows(rec, h, edges);
    shown_rows(isa, rec, h, &mut shown);
    let g = Graph {
        blocks,
        edges: part(edges, 0, 2 * usize::from(h.edges)),
        shown: part(&shown, 0, usize::from(h.instructions)),
        starts: part_from(rec, 24),
        targets: part_from(rec, targets_at(h)),
        count: h.blocks,
    };
    plan(&g, from, to, h.indent, out)
}

// The lines' codes from the start of the list on; answers how many there are, stored or not, and how many edges were read. The blocks' rows are lent. Few edges have a
// short list.
pub fn plan_record(
    isa: Isa<'_>,
    rec: &[u8],
    h: Header,
    blocks: &[u16],
    from: u16,
    to: u16,
    out: &mut [u64],
) -> Written
    requires asked { Plannable h rec.now from to }
    requires rows { blocks.now ≡ block_rows h rec.now }
    ensures lines { Stored out.old 0 (record_codes h rec.now from to) result.next out.new }
    ensures looks { (result.looks ≡ record_looks h rec.now from to) × (result.looks ≤ 5 * (to - from) * h.edges) }
{
    if h.edges <= 128 {
        let mut few = [0u16; 256];
        return plan_edges(isa, rec, h, blocks, &mut few, from, to, out);
    }
    let mut edges = [0u16; 1200];
    plan_edges(isa, rec, h, blocks, &mut edges, from, to, out)
}
