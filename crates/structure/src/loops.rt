// The lines of a do-loop: its label, its do-line, its body, which is flat, and its while-line.
ghost use Rattle.std.specs.Prelude.{◌≡◌, ◌+◌, ◌-◌, ◌≤◌, ◌<◌};
ghost use Rattle.cfg.specs.Turn.{InTurn, edges_before};
ghost use Rattle.structure.specs.Plan.{inner_labelled, flat_lines, test_block, loop_lines, head_labelled};
ghost use Rattle.structure.specs.Looks.{head_looks};
ghost use Rattle.structure.specs.Codes.{codes, do_lines};
ghost use Rattle.structure.specs.Stored.{Stored, Room};

use crate::blocks::{Written, emit_block};
use crate::lines::{label, put_line, shown_lines};
use cfg::edges::Looked;
use cfg::graph::{Graph, count_in, first_in, label_wanted, last_in};
use cfg::tests::has_outside_jump_to;
use record::blocks::Place;

// Whether block k of a do-body has a label there; i is the loop's head.
fn inner_labelled(blocks: &[u16], i: Place, k: Place) -> bool
    ensures { result ≡ inner_labelled blocks.now i.0 k.0 }
{
    (i < k) & label_wanted(blocks, k)
}

// The blocks of a do-body from its head up to its last, the last not counted: to each the loop is the range being written.
fn flat_lines(g: &Graph<'_>, i: Place, j: Place, indent: u32, out: &mut [u64], at: usize) -> usize
    requires { (j.0 < 65535) × (indent < 131072) × Room at (codes (flat_lines g.now.blocks.now g.now.shown.now i.0 j.0 i.0 (j.0 - i.0) indent)) }
    ensures { Stored out.old at (codes (flat_lines g.now.blocks.now g.now.shown.now i.0 j.0 i.0 (j.0 - i.0) indent)) result out.new }
{
    let last = j.0;
    let mut next = at;
    for k in i.0..last {
        let wanted = inner_labelled(g.blocks, i, Place(k));
        next = emit_block(
            g.blocks,
            g.shown,
            wanted,
            Place(k),
            Place(last + 1),
            indent,
            out,
            next,
        );
    }
    next
}

// The last block of a do-body, and the while-line for its last instruction.
fn test_block(g: &Graph<'_>, j: Place, indent: u32, out: &mut [u64], at: usize) -> usize
    requires { (indent + 1 < 131072) × Room at (codes (test_block g.now.blocks.now g.now.shown.now j.0 indent)) }
    ensures { Stored out.old at (codes (test_block g.now.blocks.now g.now.shown.now j.0 indent)) result out.new }
{
    let first = first_in(g.blocks, j) as u32;
    let size = u32::from(count_in(g.blocks, j)).saturating_sub(1);
    let wanted = label_wanted(g.blocks, j);
    let n = label(out, at, wanted, j, indent + 1);
    let m = shown_lines(g.shown, j, first, size, indent + 1, out, n);
    put_line(out, m, 4, j, last_in(g.blocks, j), indent)
}

// The body of a do-loop from i to j, with its while-line.
fn emit_do(g: &Graph<'_>, i: Place, j: Place, indent: u32, out: &mut [u64], at: usize) -> usize
    requires { (j.0 < 65535) × (indent + 1 < 131072) × Room at (codes (do_lines g.now.blocks.now g.now.shown.now i.0 j.0 indent)) }
    ensures { Stored out.old at (codes (do_lines g.now.blocks.now g.now.shown.now i.0 j.0 indent)) result out.new }
{
    let n = flat_lines(g, i, j, indent + 1, out, at);
    test_block(g, j, indent, out, n)
}

// Whether a do-head has a label.
#[tactic(auto, unfolding(crate::specs::Looks::head_looks))]
fn head_labelled(g: &Graph<'_>, i: Place, j: Place) -> Looked
    requires i_le_j { (i.0 ≤ j.0) × (j.0 < g.now.count) }
    ensures found { result.found ≡ head_labelled g.now.blocks.now g.now.edges.now g.now.count i.0 j.0 }
    ensures looks { (result.looks ≡ head_looks g.now.blocks.now g.now.edges.now g.now.count i.0 j.0) × (result.looks ≤ edges_before g.now.blocks.now g.now.count) }
{
    if label_wanted(g.blocks, i) {
        return has_outside_jump_to(g.blocks, g.edges, g.count, i, Place(j.0 + 1), i);
    }
    Looked {
        found: false,
        looks: 0,
    }
}

// The do-loop from i to j.
pub fn emit_loop(
    g: &Graph<'_>,
    i: Place,
    j: Place,
    indent: u32,
    out: &mut [u64],
    at: usize,
) -> Written
    requires i_le_j { (i.0 ≤ j.0) × (j.0 < g.now.count) × (indent + 1 < 131072) }
    requires room { Room at (codes (loop_lines g.now.blocks.now g.now.edges.now g.now.shown.now g.now.count i.0 j.0 indent)) }
    ensures lines { Stored out.old at (codes (loop_lines g.now.blocks.now g.now.edges.now g.now.shown.now g.now.count i.0 j.0 indent)) result.next out.new }
    ensures looks { (result.looks ≡ head_looks g.now.blocks.now g.now.edges.now g.now.count i.0 j.0) × (result.looks ≤ edges_before g.now.blocks.now g.now.count) }
{
    let wanted = head_labelled(g, i, j);
    let n = label(out, at, wanted.found, i, indent);
    let m = put_line(out, n, 1, i, 0, indent);
    let next = emit_do(g, i, j, indent, out, m);
    Written {
        next,
        looks: wanted.looks,
    }
}
