// The call over numbers and lists, as C has them.
ghost use Rattle.rows.specs.Lists.{lists_of};
ghost use Rattle.abi.specs.Exported.{Exported, Sized};

use crate::sizes::put_answered;
use pseudo::call::list;
use pseudo::size::size;

// Lists the blocks from `from` up to `to` of a record: answers 0, or the number of the first question that gets a no. Nothing is
// demanded of the caller.
pub fn cakirotu_list(
    rec: &[u8],
    from: usize,
    to: usize,
    text: &mut [u8],
    ends: &mut [u32],
    kinds: &mut [u8],
    addresses: &mut [u64],
    marks: &mut [u16],
    places: &mut [u16],
    lines: &mut [u32],
    sizes: &mut [u64],
) -> u8
    ensures { Exported rec.now from to
        (lists_of text.old ends.old kinds.old addresses.old marks.old places.old lines.old)
        (lists_of text.new ends.new kinds.new addresses.new marks.new places.new lines.new)
        sizes.old sizes.new result }
{
    let answered = list(
        rec, from, to, text, ends, kinds, addresses, marks, places, lines,
    );
    put_answered(sizes, answered)
}

// The sizes and the looks of the listing of the blocks from `from` up to `to`: answers 0, or the number of the first question before 12 that gets a
// no. Nothing is demanded of the caller.
pub fn cakirotu_size(rec: &[u8], from: usize, to: usize, sizes: &mut [u64]) -> u8
    ensures { Sized rec.now from to sizes.old sizes.new result }
{
    put_answered(sizes, size(rec, from, to))
}
