// Whether every goto to a block names a label that stands in the listing, from the codes of the plan's lines.
ghost use Rattle.std.specs.Prelude.{map, ◌≡◌};
ghost use Rattle.line.specs.Lines.{line_in};
ghost use Rattle.route.specs.Assumed.{label_stands, is_labelled, all_labelled};

use cfg::graph::branch_to;
use record::blocks::Place;
use structure::codes::{place_of_line, what_of};

// Whether a label of place k is among the lines.
fn label_stands(codes: &[u64], k: Place) -> bool
    ensures { result ≡ label_stands k.0 (map line_in codes.now) }
{
    for &code in codes {
        if (what_of(code) == 0) & (place_of_line(code) == k.0) {
            return true;
        }
    }
    false
}

// Whether a line is no goto, or the label that it names stands.
fn is_labelled(blocks: &[u16], codes: &[u64], code: u64) -> bool
    ensures { result ≡ is_labelled blocks.now (map line_in codes.now) (line_in code) }
{
    let what = what_of(code);
    if (what == 6) | (what == 3) {
        return label_stands(codes, branch_to(blocks, Place(place_of_line(code))));
    }
    true
}

pub fn all_labelled(blocks: &[u16], codes: &[u64]) -> bool
    ensures { result ≡ all_labelled blocks.now (map line_in codes.now) }
{
    for &code in codes {
        if !is_labelled(blocks, codes, code) {
            return false;
        }
    }
    true
}
