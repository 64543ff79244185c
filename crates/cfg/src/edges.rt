// Edges that stand one after the other, read in record order up to the first that passes a test: whether one does, and how many were
// read. All of them are there, so that no test of the length stands between the reads.
ghost use Rattle.std.specs.Prelude.{◌≡◌, ℕ, Bool, ◌^◌, not, ◌&&◌, ◌+◌, ◌*◌, ◌≤◌, ◌<◌, ltb, eqb, length};
ghost use Rattle.lists.specs.Bytes.{u64_at};
ghost use Rattle.cfg.specs.Graph.{true_edge_to, enters, jump_to};
ghost use Rattle.cfg.specs.Reads.{Reads};

use lists::reads::plain_u64;
use record::blocks::{Address, Place};

// What reading edges up to the first wanted one came to. No `Option`: the looks count where none is found too.
#[derive(Clone, Copy)]
pub struct Looked {
    pub found: bool,
    pub looks: u64,
}

// A True edge to a place.
pub fn is_true_edge_to(edges: &[u16], i: Place, e: usize) -> bool
    requires { 2 * e + 1 < length edges.now }
    ensures { result ≡ true_edge_to edges.now i.0 e }
{
    (edges[2 * e] == i.0) && (edges[2 * e + 1] == 1)
}

// An edge to a place behind the first and before the second.
pub fn enters(edges: &[u16], from: Place, to: Place, e: usize) -> bool
    requires { 2 * e + 1 < length edges.now }
    ensures { result ≡ enters edges.now from.0 to.0 e }
{
    let t = Place(edges[2 * e]);
    (from < t) && (t < to)
}

// An edge to a place that is not of kind Fall.
pub fn is_jump_to(edges: &[u16], i: Place, e: usize) -> bool
    requires { 2 * e + 1 < length edges.now }
    ensures { result ≡ jump_to edges.now i.0 e }
{
    (edges[2 * e] == i.0) && (edges[2 * e + 1] != 3)
}

// An edge to an address below the first, other than the excepted one.
pub fn leads_below(targets: &[u8], first: Address, excepted: Address, e: usize) -> bool
    requires { 8 * e + 8 ≤ length targets.now }
    ensures { result ≡ (ltb (u64_at targets.now (8 * e)) first.0 && not (eqb (u64_at targets.now (8 * e)) excepted.0)) }
{
    let target = Address(plain_u64(targets, 8 * e));
    (target < first) && (target != excepted)
}

// The n edges from e on, up to the first that passes a test.
pub fn read_until<F: Fn(usize) -> bool>(passes: &F, e: usize, n: usize) -> Looked
    requires fits { e + n < 2 ^ 63 }
    requires can { (k : ℕ) → k < e + n → F.pre passes.now k }
    ensures reads { (p : ℕ → Bool) → ((k : ℕ) (b : Bool) → k < e + n → F.post passes.now k b → b ≡ p k) → Reads p e n result }
    ensures few { result.looks ≤ n }
{
    for m in 0..n {
        if passes(e + m) {
            return Looked {
                found: true,
                looks: m as u64 + 1,
            };
        }
    }
    Looked {
        found: false,
        looks: n as u64,
    }
}
