// The two calls for rows over numbers and lists, as C has them.
ghost use Rattle.std.specs.Prelude.{◌≡◌};
ghost use Rattle.rows.specs.Lists.{lists_of};
ghost use Rattle.abi.specs.Rows.{sizes_in, RowsWritten, RowsRead};

use crate::sizes::{put_answer, put_bytes};
use csv_rows::reading::read_rows;
use csv_rows::writing::write_rows;
use lists::reads::element_or;
use rows::answer::Sizes;
use rows::listing::Listing;

// The sizes that a list of text bytes, tokens and lines has.
pub fn sizes_in(sizes: &[u64]) -> Sizes
    ensures { result ≡ sizes_in sizes.now }
{
    Sizes {
        text: element_or(sizes, 0, 0) as usize,
        tokens: element_or(sizes, 1, 0) as usize,
        lines: element_or(sizes, 2, 0) as usize,
    }
}

// Writes lists of these sizes as a file of rows: answers 0, 16 or 12. Nothing is demanded of the caller.
pub fn cakirotu_write_rows(
    text: &[u8],
    ends: &[u32],
    kinds: &[u8],
    addresses: &[u64],
    marks: &[u16],
    places: &[u16],
    lines: &[u32],
    sizes: &[u64],
    out: &mut [u8],
    size: &mut [u64],
) -> u8
    ensures { RowsWritten
        (lists_of text.now ends.now kinds.now addresses.now marks.now places.now lines.now)
        sizes.now out.old out.new size.old size.new result }
{
    let l = Listing {
        text,
        ends,
        kinds,
        addresses,
        marks,
        places,
        lines,
    };
    put_bytes(size, write_rows(&l, sizes_in(sizes), out))
}

// Reads a file of rows into lists: answers 0, 16 or 12 to 14. Nothing is demanded of the caller.
pub fn cakirotu_read_rows(
    file: &[u8],
    text: &mut [u8],
    ends: &mut [u32],
    kinds: &mut [u8],
    addresses: &mut [u64],
    marks: &mut [u16],
    places: &mut [u16],
    lines: &mut [u32],
    sizes: &mut [u64],
) -> u8
    ensures { RowsRead file.now
        (lists_of text.old ends.old kinds.old addresses.old marks.old places.old lines.old)
        (lists_of text.new ends.new kinds.new addresses.new marks.new places.new lines.new)
        sizes.old sizes.new result }
{
    let answer = read_rows(file, text, ends, kinds, addresses, marks, places, lines);
    put_answer(sizes, answer)
}
