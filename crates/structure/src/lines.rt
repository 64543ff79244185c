// Lines of a plan, one number each, stored into a lent list from an index on. Each writer answers the index after its lines.
ghost use Rattle.std.specs.Prelude.{[], ◌∷◌, ◌≡◌, ◌+◌, ◌-◌, ◌<◌};
ghost use Rattle.structure.specs.Plan.{label_if, shown_lines};
ghost use Rattle.structure.specs.Codes.{line_code, codes, shown_line};
ghost use Rattle.structure.specs.Stored.{Stored, Room};

use cfg::graph::is_shown;
use lists::stores::store;
use record::blocks::Place;

fn line_code(what: u64, k: Place, i: u32, indent: u32) -> u64
    requires { (what < 16) × (i < 131072) × (indent < 131072) }
    ensures { result ≡ line_code what k.0 i indent }
{
    what + 16 * (i as u64 + 65536 * (k.0 as u64 + 65536 * indent as u64))
}

// One line: what it is, its place, its instruction, its indent. What it is stays a number, as in the code that a lent list has.
#[tactic(auto, unfolding(lists::specs::Put::put))]
pub fn put_line(out: &mut [u64], at: usize, what: u64, k: Place, i: u32, indent: u32) -> usize
    requires { (what < 16) × (i < 131072) × (indent < 131072) × Room at (line_code what k.0 i indent ∷ []) }
    ensures { Stored out.old at (line_code what k.0 i indent ∷ []) result out.new }
{
    store(out, at, line_code(what, k, i, indent));
    at + 1
}

// A label, if wanted.
pub fn label(out: &mut [u64], at: usize, wanted: bool, k: Place, indent: u32) -> usize
    requires { (indent < 131072) × Room at (codes (label_if wanted k.0 indent)) }
    ensures { Stored out.old at (codes (label_if wanted k.0 indent)) result out.new }
{
    if wanted {
        return put_line(out, at, 0, k, 0, indent.saturating_sub(1));
    }
    at
}

// The line of one instruction, if it is shown.
fn shown_line(shown: &[u8], k: Place, i: u32, indent: u32, out: &mut [u64], at: usize) -> usize
    requires { (i < 131072) × (indent < 131072) × Room at (codes (shown_line shown.now k.0 i indent)) }
    ensures { Stored out.old at (codes (shown_line shown.now k.0 i indent)) result out.new }
{
    if is_shown(shown, i) {
        return put_line(out, at, 8, k, i, indent);
    }
    at
}

// The lines of n instructions from the first on.
pub fn shown_lines(
    shown: &[u8],
    k: Place,
    first: u32,
    n: u32,
    indent: u32,
    out: &mut [u64],
    at: usize,
) -> usize
    requires { (first + n < 131072) × (indent < 131072) × Room at (codes (shown_lines shown.now k.0 first n indent)) }
    ensures { Stored out.old at (codes (shown_lines shown.now k.0 first n indent)) result out.new }
{
    let end = first + n;
    let mut next = at;
    for i in first..end {
        next = shown_line(shown, k, i, indent, out, next);
    }
    next
}
