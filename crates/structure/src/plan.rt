// The plan of a range: the range writer and the writer of one if-region call each other, on ever shorter spans.
ghost use Rattle.std.specs.Prelude.{◌≡◌, ◌+◌, ◌-◌, ◌*◌, ◌≤◌, ◌<◌, length};
ghost use Rattle.cfg.specs.Turn.{InTurn, edges_before};
ghost use Rattle.structure.specs.Plan.{region_lines, range_lines, plan_codes};
ghost use Rattle.structure.specs.Looks.{label_looks, range_looks};
ghost use Rattle.structure.specs.Codes.{codes};
ghost use Rattle.structure.specs.Stored.{Stored, Room};

use crate::blocks::{Written, emit_head, emit_plain};
use crate::lines::put_line;
use crate::loops::emit_loop;
use cfg::graph::Graph;
use cfg::shape::{Shape, shape_at};
use record::blocks::Place;

// The lines of the range from `from` up to `to`.
#[cycle(emit_range_emit_region)]
fn emit_range(
    g: &Graph<'_>,
    from: Place,
    to: Place,
    indent: u32,
    out: &mut [u64],
    at: usize,
) -> Written
    requires to_le_count { (to.0 ≤ g.now.count) × (indent + (to.0 - from.0) < 131072) }
    requires count_in_bounds { 8 * edges_before g.now.blocks.now g.now.count ≤ length g.now.targets.now }
    requires room { Room at (codes (range_lines g.now.blocks.now g.now.edges.now g.now.shown.now g.now.starts.now g.now.targets.now g.now.count from.0 from.0 to.0 indent)) }
    ensures lines { Stored out.old at (codes (range_lines g.now.blocks.now g.now.edges.now g.now.shown.now g.now.starts.now g.now.targets.now g.now.count from.0 from.0 to.0 indent)) result.next out.new }
    ensures looks { result.looks ≡ range_looks g.now.blocks.now g.now.edges.now g.now.starts.now g.now.targets.now g.now.count from.0 from.0 to.0 }
{
    let end = to.0;
    let mut i = from.0;
    let mut n = at;
    let mut looks: u64 = 0;
    // No counted loop: what stands at a place says where the next one is.
    while i < end {
        let seen = shape_at(g, Place(i), to);
        looks += seen.looks;
        let shape = seen.shape;
        match shape {
            Shape::Loop(j) => {
                let written = emit_loop(g, Place(i), j, indent, out, n);
                n = written.next;
                looks += written.looks;
                i = j.0 + 1;
            }
            Shape::Region(t) => {
                let written = emit_region(g, from, Place(i), t, to, indent, out, n);
                n = written.next;
                looks += written.looks;
                i = t.0;
            }
            Shape::Plain => {
                let written = emit_plain(g, from, Place(i), to, indent, out, n);
                n = written.next;
                looks += written.looks;
                i += 1;
            }
        }
    }
    Written { next: n, looks }
}

// The lines of the if-region at place i up to place t, in the range from `from` up to `to`.
#[cycle(emit_range_emit_region)]
fn emit_region(
    g: &Graph<'_>,
    from: Place,
    i: Place,
    t: Place,
    to: Place,
    indent: u32,
    out: &mut [u64],
    at: usize,
) -> Written
    requires from_le_i { (from.0 ≤ i.0) × (i.0 + 1 < t.0) × (t.0 ≤ to.0) × (to.0 ≤ g.now.count) × (indent + (t.0 - i.0) < 131072) }
    requires count_in_bounds { 8 * edges_before g.now.blocks.now g.now.count ≤ length g.now.targets.now }
    requires room { Room at (codes (region_lines g.now.blocks.now g.now.edges.now g.now.shown.now g.now.count (range_lines g.now.blocks.now g.now.edges.now g.now.shown.now g.now.starts.now g.now.targets.now g.now.count (i.0 + 1) (i.0 + 1) t.0 (indent + 1)) from.0 i.0 to.0 indent)) }
    ensures lines { Stored out.old at (codes (region_lines g.now.blocks.now g.now.edges.now g.now.shown.now g.now.count (range_lines g.now.blocks.now g.now.edges.now g.now.shown.now g.now.starts.now g.now.targets.now g.now.count (i.0 + 1) (i.0 + 1) t.0 (indent + 1)) from.0 i.0 to.0 indent)) result.next out.new }
    ensures looks { result.looks ≡ label_looks g.now.blocks.now g.now.edges.now g.now.count from.0 i.0 to.0 + range_looks g.now.blocks.now g.now.edges.now g.now.starts.now g.now.targets.now g.now.count (i.0 + 1) (i.0 + 1) t.0 }
{
    let head = emit_head(g, from, i, to, indent, out, at);
    let inner = emit_range(g, Place(i.0 + 1), t, indent + 1, out, head.next);
    let next = put_line(out, inner.next, 5, i, 0, indent);
    Written {
        next,
        looks: head.looks + inner.looks,
    }
}

// The plan of the range from `from` up to `to`, from an indent on: one number a line from the start of the list, how many
// lines there are, stored or not, and how many edges were read for them.
pub fn plan(g: &Graph<'_>, from: u16, to: u16, indent: u8, out: &mut [u64]) -> Written
    requires to_le_count { to ≤ g.now.count }
    requires count_in_bounds { 8 * edges_before g.now.blocks.now g.now.count ≤ length g.now.targets.now }
    ensures lines { Stored out.old 0 (plan_codes g.now.blocks.now g.now.edges.now g.now.shown.now g.now.starts.now g.now.targets.now g.now.count from to indent) result.next out.new }
    ensures looks { (result.looks ≡ range_looks g.now.blocks.now g.now.edges.now g.now.starts.now g.now.targets.now g.now.count from from to) × (result.looks ≤ 5 * (to - from) * edges_before g.now.blocks.now g.now.count) }
{
    emit_range(g, Place(from), Place(to), indent as u32, out, 0)
}
