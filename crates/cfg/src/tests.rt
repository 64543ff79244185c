// The four edge tests: does a block close a loop, is a part of the order entered other than at its first place, does a block outside
// jump to a place, does a region escape. Each reads edges in record order up to the first that decides, and answers with how many
// it read. The edges of blocks that stand one after the other do so too, so that they are read as one part. The lists are taken one by
// one, since a `Graph` would ask for more of them than a test does.
ghost use Rattle.std.specs.Prelude.{not, ◌≡◌, ℕ, Bool, ◌<◌, ◌+◌, ◌*◌, ◌≤◌, length};
ghost use Rattle.cfg.specs.Graph.{first_edge_in, edges_in, true_edge_to, closes_loop, single_entry, outside_jump, escapes};
ghost use Rattle.cfg.specs.Turn.{InTurn, edges_before};
ghost use Rattle.cfg.specs.Reads.{Turns, ReadsOutside};
ghost use Rattle.cfg.specs.Looks.{block_looks, entry_looks, outside_looks, escape_looks};

use crate::edges::{Looked, enters, is_jump_to, is_true_edge_to, leads_below, read_until};
use crate::graph::{edges_before, has_condition};
use record::blocks::{Place, start_at};

// Block j, whose n edges begin at e, has a True edge to place i, and its last instruction has a condition. Its edges are read in any
// case.
pub fn closes_loop(blocks: &[u16], edges: &[u16], i: Place, j: Place, e: usize, n: usize) -> Looked
    requires { (e ≡ first_edge_in blocks.now j.0) × (n ≡ edges_in blocks.now j.0) × (2 * (e + n) ≤ length edges.now) }
    ensures found { result.found ≡ closes_loop blocks.now edges.now i.0 j.0 }
    ensures looks { (result.looks ≡ block_looks blocks.now (true_edge_to edges.now i.0) j.0) × (result.looks ≤ n) }
{
    let read = read_until(&|k| is_true_edge_to(edges, i, k), e, n);
    if read.found {
        return Looked {
            found: has_condition(blocks, j),
            looks: read.looks,
        };
    }
    read
}

// The edges of the blocks outside the places from `from` up to `to`, up to the first that passes a test: those of the blocks before, and
// if none of them does, those of the blocks behind.
fn read_outside<F: Fn(usize) -> bool>(
    blocks: &[u16],
    count: u16,
    from: Place,
    to: Place,
    passes: &F,
) -> Looked
    requires turns { Turns blocks.now count }
    requires from_le_to { (from.0 ≤ to.0) × (to.0 ≤ count) }
    requires can { (k : ℕ) → k < edges_before blocks.now count → F.pre passes.now k }
    ensures reads { (p : ℕ → Bool) → ((k : ℕ) (b : Bool) → k < edges_before blocks.now count → F.post passes.now k b → b ≡ p k) → ReadsOutside p blocks.now count from.0 to.0 result }
    ensures few { result.looks ≤ 131070 }
{
    let before = read_until(passes, 0, edges_before(blocks, from));
    if before.found {
        return before;
    }
    let e = edges_before(blocks, to);
    let behind = read_until(passes, e, edges_before(blocks, Place(count)) - e);
    Looked {
        found: behind.found,
        looks: before.looks + behind.looks,
    }
}

// The entry test: a block outside the places from `from` up to `to` has an edge to one of them other than the first.
pub fn enters_inside(blocks: &[u16], edges: &[u16], count: u16, from: Place, to: Place) -> Looked
    requires in_turn { InTurn blocks.now edges.now count }
    requires from_le_to { (from.0 ≤ to.0) × (to.0 ≤ count) }
    ensures found { not result.found ≡ single_entry blocks.now edges.now count from.0 to.0 }
    ensures looks { (result.looks ≡ entry_looks blocks.now edges.now count from.0 to.0) × (result.looks ≤ 131070) }
{
    read_outside(blocks, count, from, to, &|k| enters(edges, from, to, k))
}

// The outside test: a block outside the places from `from` up to `to` jumps to place i.
pub fn has_outside_jump_to(
    blocks: &[u16],
    edges: &[u16],
    count: u16,
    from: Place,
    to: Place,
    i: Place,
) -> Looked
    requires in_turn { InTurn blocks.now edges.now count }
    requires from_le_to { (from.0 ≤ to.0) × (to.0 ≤ count) }
    ensures found { result.found ≡ outside_jump blocks.now edges.now count from.0 to.0 i.0 }
    ensures looks { (result.looks ≡ outside_looks blocks.now edges.now count from.0 to.0 i.0) × (result.looks ≤ edges_before blocks.now count) }
{
    read_outside(blocks, count, from, to, &|k| is_jump_to(edges, i, k))
}

// The escape test: a block from `from` up to `to` has an edge to an address below the start of `from`, that of `to` excepted.
pub fn region_escapes(
    blocks: &[u16],
    starts: &[u8],
    targets: &[u8],
    from: Place,
    to: Place,
) -> Looked
    requires turns { Turns blocks.now to.0 }
    requires from_le_to { (from.0 ≤ to.0) × (8 * edges_before blocks.now to.0 ≤ length targets.now) }
    ensures found { result.found ≡ escapes blocks.now starts.now targets.now from.0 to.0 }
    ensures looks { (result.looks ≡ escape_looks blocks.now starts.now targets.now from.0 to.0) × (result.looks ≤ 131070) }
{
    let first = start_at(starts, from);
    let excepted = start_at(starts, to);
    let e = edges_before(blocks, from);
    let leads = |k| leads_below(targets, first, excepted, k);
    read_until(&leads, e, edges_before(blocks, to) - e)
}
