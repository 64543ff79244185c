// What stands at a place of a range: a do-loop, an if-region, or a plain block; and how many edges were read to tell.
ghost use Rattle.std.specs.Prelude.{◌&&◌, not, ◌≡◌, ◌+◌, ◌-◌, ◌*◌, ◌<◌, ◌≤◌, ltb, length};
ghost use Rattle.lists.specs.Choice.{pick};
ghost use Rattle.cfg.specs.Graph.{single_entry, escapes};
ghost use Rattle.cfg.specs.Turn.{InTurn, edges_before};
ghost use Rattle.cfg.specs.Looks.{search_looks, entry_looks, escape_looks, region_looks, shape_looks};
ghost use Rattle.cfg.specs.Shape.{last_loop, opens_region, region_at, shape_at};

use crate::edges::Looked;
use crate::graph::{Graph, branch_to, edges_before, ending_in, first_edge_in};
use crate::tests::{closes_loop, enters_inside, region_escapes};
use record::blocks::Place;

// A do-loop up to the block at a place, an if-region up to a place, or a plain block.
#[derive(Clone, Copy)]
pub enum Shape {
    Loop(Place),
    Region(Place),
    Plain,
}

// What stands at a place, and how many edges were read to tell.
#[derive(Clone, Copy)]
pub struct Seen {
    pub shape: Shape,
    pub looks: u64,
}

// What the search for a loop came to.
#[derive(Clone, Copy)]
struct Sought {
    place: Option<Place>,
    looks: u64,
}

// The last block from place i on, before `to`, that closes a loop to i. Each block's edges end where those of the block read before
// it begin.
fn last_loop(g: &Graph<'_>, i: Place, to: Place) -> Sought
    requires { to.0 ≤ g.now.count }
    ensures found { result.place ≡ last_loop g.now.blocks.now g.now.edges.now i.0 to.0 }
    ensures looks { (result.looks ≡ search_looks g.now.blocks.now g.now.edges.now i.0 (to.0 - i.0)) × (result.looks ≤ 131070) }
{
    let mut end = edges_before(g.blocks, to);
    let mut looks: u64 = 0;
    for j in (i.0..to.0).rev() {
        let e = first_edge_in(g.blocks, Place(j)) as usize;
        let read = closes_loop(g.blocks, g.edges, i, Place(j), e, end - e);
        looks += read.looks;
        if read.found {
            return Sought {
                place: Some(Place(j)),
                looks,
            };
        }
        end = e;
    }
    Sought { place: None, looks }
}

// A loop from i to j has more than one block, and is entered only at i.
fn is_loop(g: &Graph<'_>, i: Place, j: Place) -> Looked
    requires j_lt_count { j.0 < g.now.count }
    ensures found { result.found ≡ (ltb i.0 j.0 && single_entry g.now.blocks.now g.now.edges.now g.now.count i.0 (j.0 + 1)) }
    ensures looks { (result.looks ≡ pick (ltb i.0 j.0) (entry_looks g.now.blocks.now g.now.edges.now g.now.count i.0 (j.0 + 1)) 0) × (result.looks ≤ 131070) }
{
    if i < j {
        let entry = enters_inside(g.blocks, g.edges, g.count, i, Place(j.0 + 1));
        return Looked {
            found: !entry.found,
            looks: entry.looks,
        };
    }
    Looked {
        found: false,
        looks: 0,
    }
}

// The places from `from` up to t are entered only at the first, and do not escape.
fn is_region(g: &Graph<'_>, from: Place, t: Place) -> Looked
    requires from_le_t { (from.0 ≤ t.0) × (t.0 ≤ g.now.count) × (8 * edges_before g.now.blocks.now g.now.count ≤ length g.now.targets.now) }
    ensures found { result.found ≡ (single_entry g.now.blocks.now g.now.edges.now g.now.count from.0 t.0 && not (escapes g.now.blocks.now g.now.starts.now g.now.targets.now from.0 t.0)) }
    ensures looks { (result.looks ≡ entry_looks g.now.blocks.now g.now.edges.now g.now.count from.0 t.0 + pick (single_entry g.now.blocks.now g.now.edges.now g.now.count from.0 t.0) (escape_looks g.now.blocks.now g.now.starts.now g.now.targets.now from.0 t.0) 0) × (result.looks ≤ 262140) }
{
    let entry = enters_inside(g.blocks, g.edges, g.count, from, t);
    if entry.found {
        return Looked {
            found: false,
            looks: entry.looks,
        };
    }
    let escape = region_escapes(g.blocks, g.starts, g.targets, from, t);
    Looked {
        found: !escape.found,
        looks: entry.looks + escape.looks,
    }
}

// An if-region stands at place i of a range up to `to`.
fn opens_region(g: &Graph<'_>, i: Place, to: Place) -> Looked
    requires to_le_count { (to.0 ≤ g.now.count) × (8 * edges_before g.now.blocks.now g.now.count ≤ length g.now.targets.now) }
    ensures found { result.found ≡ opens_region g.now.blocks.now g.now.edges.now g.now.starts.now g.now.targets.now g.now.count i.0 to.0 }
    ensures looks { (result.looks ≡ region_looks g.now.blocks.now g.now.edges.now g.now.starts.now g.now.targets.now g.now.count i.0 to.0) × (result.looks ≤ 262140) }
{
    let t = branch_to(g.blocks, i);
    if ending_in(g.blocks, i) == 2 {
        if i.0 as u32 + 1 < t.0 as u32 {
            if t.0 <= to.0 {
                return is_region(g, Place(i.0 + 1), t);
            }
        }
    }
    Looked {
        found: false,
        looks: 0,
    }
}

// An if-region or a plain block, behind a search for a loop that read some edges.
fn region_at(g: &Graph<'_>, i: Place, to: Place, looks: u64) -> Seen
    requires to_le_count { (to.0 ≤ g.now.count) × (8 * edges_before g.now.blocks.now g.now.count ≤ length g.now.targets.now) × (looks ≤ 262140) }
    ensures shape { result.shape ≡ region_at g.now.blocks.now g.now.edges.now g.now.starts.now g.now.targets.now g.now.count i.0 to.0 }
    ensures looks { result.looks ≡ looks + region_looks g.now.blocks.now g.now.edges.now g.now.starts.now g.now.targets.now g.now.count i.0 to.0 }
{
    let region = opens_region(g, i, to);
    if region.found {
        return Seen {
            shape: Shape::Region(branch_to(g.blocks, i)),
            looks: looks + region.looks,
        };
    }
    Seen {
        shape: Shape::Plain,
        looks: looks + region.looks,
    }
}

// What stands at place i of a range up to `to`. No shorter loop is tried.
pub fn shape_at(g: &Graph<'_>, i: Place, to: Place) -> Seen
    requires i_lt_to { (i.0 < to.0) × (to.0 ≤ g.now.count) × (8 * edges_before g.now.blocks.now g.now.count ≤ length g.now.targets.now) }
    ensures shape { result.shape ≡ shape_at g.now.blocks.now g.now.edges.now g.now.starts.now g.now.targets.now g.now.count i.0 to.0 }
    ensures looks { (result.looks ≡ shape_looks g.now.blocks.now g.now.edges.now g.now.starts.now g.now.targets.now g.now.count i.0 to.0) × (result.looks ≤ 4 * edges_before g.now.blocks.now g.now.count) }
{
    let sought = last_loop(g, i, to);
    let looks = sought.looks;
    let found = sought.place;
    match found {
        Some(j) => {
            let test = is_loop(g, i, j);
            let read = looks + test.looks;
            if test.found {
                return Seen {
                    shape: Shape::Loop(j),
                    looks: read,
                };
            }
            region_at(g, i, to, read)
        }
        None => region_at(g, i, to, looks),
    }
}
