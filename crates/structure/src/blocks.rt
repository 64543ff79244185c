// The lines of one block: of any in a range, of a plain one, and of the head of an if-region.
ghost use Rattle.std.specs.Prelude.{◌≡◌, ◌+◌, ◌-◌, ◌≤◌, ◌<◌};
ghost use Rattle.cfg.specs.Turn.{InTurn, edges_before};
ghost use Rattle.structure.specs.Plan.{body_count, body_lines, goes_next, jump_lines, closing_lines, block_lines, plain_lines, labelled};
ghost use Rattle.structure.specs.Looks.{label_looks};
ghost use Rattle.structure.specs.Codes.{codes, head_lines};
ghost use Rattle.structure.specs.Stored.{Stored, Room};

use crate::lines::{label, put_line, shown_lines};
use cfg::edges::Looked;
use cfg::graph::{Graph, branch_to, count_in, ending_in, first_in, label_wanted, last_in};
use cfg::tests::has_outside_jump_to;
use record::blocks::Place;

// Where a writer's lines end, and how many edges were read for them.
#[derive(Clone, Copy)]
pub struct Written {
    pub next: usize,
    pub looks: u64,
}

// Whether the block at place i of a range has a label: the outside test is asked only of a range's first block.
#[tactic(auto, unfolding(crate::specs::Looks::label_looks))]
fn is_labelled(g: &Graph<'_>, from: Place, i: Place, to: Place) -> Looked
    requires from_le_to { (from.0 ≤ to.0) × (to.0 ≤ g.now.count) }
    ensures found { result.found ≡ labelled g.now.blocks.now g.now.edges.now g.now.count from.0 i.0 to.0 }
    ensures looks { (result.looks ≡ label_looks g.now.blocks.now g.now.edges.now g.now.count from.0 i.0 to.0) × (result.looks ≤ edges_before g.now.blocks.now g.now.count) }
{
    if label_wanted(g.blocks, i) {
        if from < i {
            return Looked {
                found: true,
                looks: 0,
            };
        }
        return has_outside_jump_to(g.blocks, g.edges, g.count, from, to, i);
    }
    Looked {
        found: false,
        looks: 0,
    }
}

// How many instructions stand before a closing conditional branch or direct jmp.
#[tactic(auto, unfolding(crate::specs::Plan::body_count))]
fn body_count(blocks: &[u16], k: Place) -> u32
    ensures { (result ≡ body_count blocks.now k.0) × (result < 65536) }
{
    let n = count_in(blocks, k) as u32;
    let ending = ending_in(blocks, k);
    if (ending == 2) | (ending == 3) {
        return n.saturating_sub(1);
    }
    n
}

fn body_lines(
    blocks: &[u16],
    shown: &[u8],
    k: Place,
    indent: u32,
    out: &mut [u64],
    at: usize,
) -> usize
    requires { (indent < 131072) × Room at (codes (body_lines blocks.now shown.now k.0 indent)) }
    ensures { Stored out.old at (codes (body_lines blocks.now shown.now k.0 indent)) result out.new }
{
    let first = first_in(blocks, k) as u32;
    let n = body_count(blocks, k);
    shown_lines(shown, k, first, n, indent, out, at)
}

// A direct jmp goes to the next place, and that lies in the range.
fn goes_next(blocks: &[u16], i: Place, to: Place) -> bool
    ensures { result ≡ goes_next blocks.now i.0 to.0 }
{
    let next = i.0 as u32 + 1;
    (branch_to(blocks, i).0 as u32 == next) & (next < to.0 as u32)
}

// The line of a last direct jmp: none, a goto, or a tail call.
fn jump_line(blocks: &[u16], i: Place, to: Place, indent: u32, out: &mut [u64], at: usize) -> usize
    requires { (indent < 131072) × Room at (codes (jump_lines blocks.now i.0 to.0 indent)) }
    ensures { Stored out.old at (codes (jump_lines blocks.now i.0 to.0 indent)) result out.new }
{
    if goes_next(blocks, i, to) {
        return at;
    }
    let last = last_in(blocks, i);
    if branch_to(blocks, i) == Place(65535) {
        return put_line(out, at, 7, i, last, indent);
    }
    put_line(out, at, 6, i, last, indent)
}

// The line of a block's closing branch or jmp, by the number in its row.
fn closing_line(
    blocks: &[u16],
    i: Place,
    to: Place,
    indent: u32,
    out: &mut [u64],
    at: usize,
) -> usize
    requires { (indent < 131072) × Room at (codes (closing_lines blocks.now i.0 to.0 indent)) }
    ensures { Stored out.old at (codes (closing_lines blocks.now i.0 to.0 indent)) result out.new }
{
    let ending = ending_in(blocks, i);
    if ending == 2 {
        return put_line(out, at, 3, i, last_in(blocks, i), indent);
    }
    if ending == 3 {
        return jump_line(blocks, i, to, indent, out, at);
    }
    at
}

// The block at place k of a range that ends at `to`: its label, if wanted, its instructions, its closing branch or jmp.
pub fn emit_block(
    blocks: &[u16],
    shown: &[u8],
    wanted: bool,
    k: Place,
    to: Place,
    indent: u32,
    out: &mut [u64],
    at: usize,
) -> usize
    requires { (indent < 131072) × Room at (codes (block_lines blocks.now shown.now wanted k.0 to.0 indent)) }
    ensures { Stored out.old at (codes (block_lines blocks.now shown.now wanted k.0 to.0 indent)) result out.new }
{
    let n = label(out, at, wanted, k, indent);
    let m = body_lines(blocks, shown, k, indent, out, n);
    closing_line(blocks, k, to, indent, out, m)
}

// A plain block at place i of the range from `from` up to `to`.
pub fn emit_plain(
    g: &Graph<'_>,
    from: Place,
    i: Place,
    to: Place,
    indent: u32,
    out: &mut [u64],
    at: usize,
) -> Written
    requires from_le_to { (from.0 ≤ to.0) × (to.0 ≤ g.now.count) × (indent < 131072) }
    requires room { Room at (codes (plain_lines g.now.blocks.now g.now.edges.now g.now.shown.now g.now.count from.0 i.0 to.0 indent)) }
    ensures lines { Stored out.old at (codes (plain_lines g.now.blocks.now g.now.edges.now g.now.shown.now g.now.count from.0 i.0 to.0 indent)) result.next out.new }
    ensures looks { (result.looks ≡ label_looks g.now.blocks.now g.now.edges.now g.now.count from.0 i.0 to.0) × (result.looks ≤ edges_before g.now.blocks.now g.now.count) }
{
    let wanted = is_labelled(g, from, i, to);
    let next = emit_block(g.blocks, g.shown, wanted.found, i, to, indent, out, at);
    Written {
        next,
        looks: wanted.looks,
    }
}

// The block of an if-region, with its opening line.
pub fn emit_head(
    g: &Graph<'_>,
    from: Place,
    i: Place,
    to: Place,
    indent: u32,
    out: &mut [u64],
    at: usize,
) -> Written
    requires from_le_to { (from.0 ≤ to.0) × (to.0 ≤ g.now.count) × (indent < 131072) }
    requires room { Room at (codes (head_lines g.now.blocks.now g.now.edges.now g.now.shown.now g.now.count from.0 i.0 to.0 indent)) }
    ensures lines { Stored out.old at (codes (head_lines g.now.blocks.now g.now.edges.now g.now.shown.now g.now.count from.0 i.0 to.0 indent)) result.next out.new }
    ensures looks { (result.looks ≡ label_looks g.now.blocks.now g.now.edges.now g.now.count from.0 i.0 to.0) × (result.looks ≤ edges_before g.now.blocks.now g.now.count) }
{
    let wanted = is_labelled(g, from, i, to);
    let n = label(out, at, wanted.found, i, indent);
    let m = body_lines(g.blocks, g.shown, i, indent, out, n);
    let next = put_line(out, m, 2, i, last_in(g.blocks, i), indent);
    Written {
        next,
        looks: wanted.looks,
    }
}
