// The assumptions of blocks, from their rows: each goes through the blocks once.
ghost use Rattle.std.specs.Prelude.{not, ◌≡◌};
ghost use Rattle.lists.specs.Choice.{all_below};
ghost use Rattle.record.specs.Body.{body_at};
ghost use Rattle.record.specs.Blocks.{start_at};
ghost use Rattle.record.specs.Layout.{starts_of};
ghost use Rattle.operand.specs.Lent.{Rising};
ghost use Rattle.operand.specs.Names.{entry_at};
ghost use Rattle.cfg.specs.Graph.{last_in};
ghost use Rattle.route.specs.Assumed.{is_nothing, starts_unnamed};
ghost use Rattle.checker.specs.Rows.{one_edge_to, turns_inside, last_marked, jump_led, other_led, branch_inside};

use crate::edges::{Kind, count_of, lead_to};
use crate::instructions::{ends_route, none_turns};
use cfg::graph::{branch_to, count_in, edges_in, ending_in, first_edge_in, first_in, last_in};
use lists::parts::from;
use operand::names::entry_at;
use record::blocks::{Place, start_at};
use record::body::{op_number, skip_mark};
use record::header::Header;

// The last instruction of block k, where it has one.
fn last_body<'a>(bodies: &'a [u8], blocks: &[u16], k: Place) -> &'a [u8]
    ensures { result.now ≡ body_at bodies.now (last_in blocks.now k.0) }
{
    from(bodies, 92 * last_in(blocks, k) as usize)
}

// Whether block k has one edge of a kind, to an address.
fn one_edge_to(targets: &[u8], kinds: &[u8], blocks: &[u16], kind: Kind, k: Place, va: u64) -> bool
    ensures { result ≡ one_edge_to targets.now kinds.now blocks.now kind k.0 va }
{
    let e = first_edge_in(blocks, k);
    let n = edges_in(blocks, k);
    (count_of(kinds, kind, e, n) == 1) & lead_to(targets, kinds, kind, va, e, n)
}

// Whether an instruction of block k before its last turns away.
fn turns_inside(bodies: &[u8], blocks: &[u16], k: Place) -> bool
    ensures { result ≡ turns_inside bodies.now blocks.now k.0 }
{
    let n = count_in(blocks, k);
    if n == 0 {
        return false;
    }
    !none_turns(bodies, first_in(blocks, k) as u32, n - 1)
}

pub fn turns_last(bodies: &[u8], blocks: &[u16], count: u16) -> bool
    ensures { result ≡ all_below (λ k. not (turns_inside bodies.now blocks.now k)) count }
{
    let mut ok = true;
    for k in 0..count {
        ok = ok & !turns_inside(bodies, blocks, Place(k));
    }
    ok
}

// Whether block k's last instruction is skip-marked.
fn last_marked(bodies: &[u8], blocks: &[u16], k: Place) -> bool
    ensures { result ≡ last_marked bodies.now blocks.now k.0 }
{
    (count_in(blocks, k) != 0) & (skip_mark(last_body(bodies, blocks, k)) == 1)
}

pub fn lasts_unmarked(bodies: &[u8], blocks: &[u16], count: u16) -> bool
    ensures { result ≡ all_below (λ k. not (last_marked bodies.now blocks.now k)) count }
{
    let mut ok = true;
    for k in 0..count {
        ok = ok & !last_marked(bodies, blocks, Place(k));
    }
    ok
}

// Whether no atlas entry stands at block k's start.
fn start_unnamed(rec: &[u8], h: Header, k: Place) -> bool
    requires { Rising h rec.now }
    ensures { result ≡ is_nothing (entry_at h rec.now (start_at (starts_of h rec.now) k.0)) }
{
    let found = entry_at(rec, h, start_at(from(rec, 24), k).0);
    match found {
        Some(_) => false,
        None => true,
    }
}

pub fn starts_unnamed(rec: &[u8], h: Header) -> bool
    requires { Rising h rec.now }
    ensures { result ≡ starts_unnamed h rec.now }
{
    let mut ok = true;
    for k in 0..h.blocks {
        ok = ok & start_unnamed(rec, h, Place(k));
    }
    ok
}

// Whether a last direct jmp to a block has its one Uncond edge there; any other block has.
fn jump_led(targets: &[u8], kinds: &[u8], bodies: &[u8], blocks: &[u16], k: Place) -> bool
    ensures { result ≡ jump_led targets.now kinds.now bodies.now blocks.now k.0 }
{
    if (ending_in(blocks, k) == 3) & (branch_to(blocks, k).0 != 65535) {
        let va = op_number(last_body(bodies, blocks, k), 0);
        return one_edge_to(targets, kinds, blocks, Kind::Uncond, k, va);
    }
    true
}

pub fn jumps_led(targets: &[u8], kinds: &[u8], bodies: &[u8], blocks: &[u16], count: u16) -> bool
    ensures { result ≡ all_below (jump_led targets.now kinds.now bodies.now blocks.now) count }
{
    let mut ok = true;
    for k in 0..count {
        ok = ok & jump_led(targets, kinds, bodies, blocks, Place(k));
    }
    ok
}

// Whether a block that does not end in a jmp or return has its one Fall or False edge to the next block.
fn other_led(
    starts: &[u8],
    targets: &[u8],
    kinds: &[u8],
    bodies: &[u8],
    blocks: &[u16],
    count: u16,
    k: u16,
) -> bool
    ensures { result ≡ other_led targets.now kinds.now bodies.now blocks.now starts.now count k }
{
    if (count_in(blocks, Place(k)) != 0) & ends_route(last_body(bodies, blocks, Place(k))) {
        return true;
    }
    if count <= k {
        return false;
    }
    if count - k == 1 {
        return false;
    }
    let va = start_at(starts, Place(k + 1)).0;
    one_edge_to(targets, kinds, blocks, Kind::Onward, Place(k), va)
}

pub fn others_led(
    starts: &[u8],
    targets: &[u8],
    kinds: &[u8],
    bodies: &[u8],
    blocks: &[u16],
    count: u16,
) -> bool
    ensures { result ≡ all_below (other_led targets.now kinds.now bodies.now blocks.now starts.now count) count }
{
    let mut ok = true;
    for k in 0..count {
        ok = ok & other_led(starts, targets, kinds, bodies, blocks, count, k);
    }
    ok
}

// Whether each block's conditional branch goes to a block.
pub fn branches_inside(blocks: &[u16], count: u16) -> bool
    ensures { result ≡ all_below (branch_inside blocks.now) count }
{
    let mut ok = true;
    for k in 0..count {
        ok = ok & ((ending_in(blocks, Place(k)) != 2) | (branch_to(blocks, Place(k)).0 != 65535));
    }
    ok
}
