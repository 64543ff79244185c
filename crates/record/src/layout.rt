// Where each array begins. The sizes are u16, so every offset fits with room to spare.
ghost use Rattle.std.specs.Prelude.{◌≡◌, ◌<◌};
ghost use Rattle.record.specs.Layout.{marks_at, targets_at, edge_kinds_at, addresses_at, bodies_at, entries_at, pairs_at, spans_at, texts_at, size_of};

use crate::header::Header;

// A u16 as a size, with its bound.
pub fn size(x: u16) -> usize
    ensures { (result ≡ x) × (result < 65536) }
{
    x as usize
}

pub fn marks_at(h: Header) -> usize
    ensures { (result ≡ marks_at h) × (result < 1_000_000) }
{
    24 + 8 * usize::from(h.blocks)
}

pub fn targets_at(h: Header) -> usize
    ensures { (result ≡ targets_at h) × (result < 2_000_000) }
{
    marks_at(h) + 4 * usize::from(h.blocks)
}

pub fn edge_kinds_at(h: Header) -> usize
    ensures { (result ≡ edge_kinds_at h) × (result < 3_000_000) }
{
    targets_at(h) + 8 * usize::from(h.edges)
}

pub fn addresses_at(h: Header) -> usize
    ensures { (result ≡ addresses_at h) × (result < 4_000_000) }
{
    edge_kinds_at(h) + usize::from(h.edges)
}

pub fn bodies_at(h: Header) -> usize
    ensures { (result ≡ bodies_at h) × (result < 5_000_000) }
{
    addresses_at(h) + 8 * usize::from(h.instructions)
}

pub fn entries_at(h: Header) -> usize
    ensures { (result ≡ entries_at h) × (result < 12_000_000) }
{
    bodies_at(h) + 92 * usize::from(h.instructions)
}

pub fn pairs_at(h: Header) -> usize
    ensures { (result ≡ pairs_at h) × (result < 13_000_000) }
{
    entries_at(h) + 8 * usize::from(h.atlas)
}

pub fn spans_at(h: Header) -> usize
    ensures { (result ≡ spans_at h) × (result < 14_000_000) }
{
    pairs_at(h) + 2 * usize::from(h.atlas)
}

pub fn texts_at(h: Header) -> usize
    ensures { (result ≡ texts_at h) × (result < 16_000_000) }
{
    spans_at(h) + 16 * usize::from(h.spans)
}

pub fn size_of(h: Header) -> usize
    ensures { (result ≡ size_of h) × (result < 17_000_000) }
{
    texts_at(h) + usize::from(h.text)
}
