// The rows of a record's blocks, edges and instructions, read as document 01 speaks of them.
ghost use Rattle.std.specs.Prelude.{◌≡◌, ℕ, get_or, ◌*◌, ◌<◌, ◌≤◌, length};
ghost use Rattle.cfg.specs.Graph.{first_in, count_in, first_edge_in, edges_in, label_wanted, ending_in, branch_to, last_in, is_shown, has_condition};
ghost use Rattle.cfg.specs.Turn.{InTurn, edges_before};
ghost use Rattle.cfg.specs.Reads.{Turns};

use lists::reads::{element_or, u8_at};
use record::blocks::Place;

// The rows of a record's blocks, edges and instructions, and the parts of the record that begin at the blocks' starts and at the edges'
// targets: the edges stand block by block. The last two facts are what the types say, kept for proofs that have it by reference.
#[derive(Clone, Copy)]
pub struct Graph<'a> {
    pub blocks: &'a [u16],
    pub edges: &'a [u16],
    pub shown: &'a [u8],
    pub starts: &'a [u8],
    pub targets: &'a [u8],
    pub count: u16,
    pub ghost in_turn: { InTurn blocks.now edges.now count },
    pub ghost count_fits: { count < 65536 },
    pub ghost blocks_fit: { (k : ℕ) → get_or blocks.now k 0 < 65536 },
}

// One reader for each number of a block's row: with the number's place as an argument the names would be lost.
pub fn first_in(blocks: &[u16], k: Place) -> u16
    ensures { (result ≡ first_in blocks.now k.0) × (result < 65536) }
{
    element_or(blocks, 8 * k.0 as usize, 0)
}

pub fn count_in(blocks: &[u16], k: Place) -> u16
    ensures { (result ≡ count_in blocks.now k.0) × (result < 65536) }
{
    element_or(blocks, 8 * k.0 as usize + 1, 0)
}

pub fn first_edge_in(blocks: &[u16], k: Place) -> u16
    ensures { (result ≡ first_edge_in blocks.now k.0) × (result < 65536) }
{
    element_or(blocks, 8 * k.0 as usize + 2, 0)
}

pub fn edges_in(blocks: &[u16], k: Place) -> u16
    ensures { (result ≡ edges_in blocks.now k.0) × (result < 65536) }
{
    element_or(blocks, 8 * k.0 as usize + 3, 0)
}

// How many edges the blocks before place k have: they end where those of the last one do.
pub fn edges_before(blocks: &[u16], k: Place) -> usize
    requires { Turns blocks.now k.0 }
    ensures { (result ≡ edges_before blocks.now k.0) × (result ≤ 131070) }
{
    if k.0 == 0 {
        return 0;
    }
    let last = Place(k.0 - 1);
    first_edge_in(blocks, last) as usize + edges_in(blocks, last) as usize
}

pub fn label_wanted(blocks: &[u16], k: Place) -> bool
    ensures { result ≡ label_wanted blocks.now k.0 }
{
    element_or(blocks, 8 * k.0 as usize + 4, 0) == 1
}

#[tactic(auto, unfolding(crate::specs::Graph::ending_in))]
pub fn ending_in(blocks: &[u16], k: Place) -> u16
    ensures { result ≡ ending_in blocks.now k.0 }
{
    if count_in(blocks, k) == 0 {
        return 0;
    }
    element_or(blocks, 8 * k.0 as usize + 5, 0)
}

pub fn branch_to(blocks: &[u16], k: Place) -> Place
    ensures { result.0 ≡ branch_to blocks.now k.0 }
{
    Place(element_or(blocks, 8 * k.0 as usize + 6, 0))
}

// A block's last instruction, of a block that has one.
pub fn last_in(blocks: &[u16], k: Place) -> u32
    ensures { (result ≡ last_in blocks.now k.0) × (result < 131072) }
{
    let after = first_in(blocks, k) as u32 + count_in(blocks, k) as u32;
    after.saturating_sub(1)
}

pub fn has_condition(blocks: &[u16], j: Place) -> bool
    ensures { result ≡ has_condition blocks.now j.0 }
{
    let ending = ending_in(blocks, j);
    (ending == 1) | (ending == 2)
}

pub fn is_shown(shown: &[u8], i: u32) -> bool
    ensures { result ≡ is_shown shown.now i }
{
    u8_at(shown, i as usize) == 1
}
