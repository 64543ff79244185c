// The command table over numbers and lists, as C has them.
ghost use Rattle.std.specs.Prelude.{◌≡◌};
ghost use Rattle.lists.specs.Put.{put};
ghost use Rattle.rows.specs.Lists.{lists_of};
ghost use Rattle.lists.specs.Question.{number_of};
ghost use Rattle.commands.specs.Table.{table_lists};
ghost use Rattle.abi.specs.Tables.{count_list, TableMade};

use crate::file::sizes_in;
use crate::sizes::put_values;
use commands::table::{Size, command_table};
use lists::question::Question;
use rows::listing::Listing;

// How many bytes and rows the table has.
fn put_counts(counts: &mut [u64], answer: Result<Size, Question>) -> u8
    ensures number { result ≡ number_of answer }
    ensures counts { counts.new ≡ put 0 (count_list answer) counts.old }
{
    match answer {
        Ok(t) => put_values(counts, Ok([t.bytes as u64, t.rows as u64])),
        Err(q) => put_values::<2>(counts, Err(q)),
    }
}

// The command table of lists of these sizes: answers 0, 19, 16 or 12 to 14. Nothing is demanded of the caller.
pub fn cakirotu_command_table(
    text: &[u8],
    ends: &[u32],
    kinds: &[u8],
    addresses: &[u64],
    marks: &[u16],
    places: &[u16],
    lines: &[u32],
    sizes: &[u64],
    call: &[u8],
    register: &[u8],
    bytes: &mut [u8],
    rows: &mut [u64],
    calls: &mut [u64],
    counts: &mut [u64],
) -> u8
    ensures { TableMade
        (lists_of text.now ends.now kinds.now addresses.now marks.now places.now lines.now)
        sizes.now call.now register.now
        (table_lists bytes.old rows.old calls.old) (table_lists bytes.new rows.new calls.new)
        counts.old counts.new result }
{
    let l = Listing {
        text,
        ends,
        kinds,
        addresses,
        marks,
        places,
        lines,
    };
    let answer = command_table(&l, sizes_in(sizes), call, register, bytes, rows, calls);
    put_counts(counts, answer)
}
