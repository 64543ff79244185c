// A block's edges of a kind: how many there are, and where they lead.
ghost use Rattle.std.specs.Prelude.{not, ◌||◌, ◌≡◌, ◌+◌, ◌≤◌, eqb};
ghost use Rattle.lists.specs.Choice.{pick, all_below, sum_below};
ghost use Rattle.record.specs.Blocks.{target_at, edge_kind_at};
ghost use Rattle.checker.specs.Edges.{of_kind};

use lists::reads::{u8_at, u64_at};

// Uncond, or Fall and False.
#[derive(Clone, Copy)]
pub enum Kind {
    Uncond,
    Onward,
}

fn is_of(kind: Kind, c: u8) -> bool
    ensures { result ≡ of_kind kind c }
{
    match kind {
        Kind::Uncond => c == 0,
        Kind::Onward => (c == 2) | (c == 3),
    }
}

// 1 for an edge of the kind, 0 for another.
fn one_of(kinds: &[u8], kind: Kind, e: usize) -> u32
    ensures { (result ≡ pick (of_kind kind (edge_kind_at kinds.now e)) 1 0) × (result ≤ 1) }
{
    if is_of(kind, u8_at(kinds, e)) {
        return 1;
    }
    0
}

// Of n edges from e on: how many are of the kind.
pub fn count_of(kinds: &[u8], kind: Kind, e: u16, n: u16) -> u32
    ensures { result ≡ sum_below (λ m. pick (of_kind kind (edge_kind_at kinds.now (e + m))) 1 0) n }
{
    let mut count: u32 = 0;
    for m in 0..n {
        count += one_of(kinds, kind, e as usize + m as usize);
    }
    count
}

// Whether each of them leads to an address.
pub fn lead_to(targets: &[u8], kinds: &[u8], kind: Kind, va: u64, e: u16, n: u16) -> bool
    ensures { result ≡ all_below (λ m. not (of_kind kind (edge_kind_at kinds.now (e + m))) || eqb (target_at targets.now (e + m)) va) n }
{
    let mut ok = true;
    for m in 0..n {
        let at = e as usize + m as usize;
        ok = ok & (!is_of(kind, u8_at(kinds, at)) | (u64_at(targets, 8 * at) == va));
    }
    ok
}

// Whether no edge is Case.
pub fn no_case(kinds: &[u8], edges: u16) -> bool
    ensures { result ≡ all_below (λ e. not (eqb (edge_kind_at kinds.now e) 4)) edges }
{
    let mut ok = true;
    for e in 0..edges {
        ok = ok & (u8_at(kinds, e as usize) != 4);
    }
    ok
}
