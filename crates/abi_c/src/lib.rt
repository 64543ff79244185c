// The library for C: abi's calls under the names that bindings/c/cakirotu.h declares, with their clauses. A static library has the exports of its own
// crate alone, and no crate can depend on one.
#![tactic(auto)]

ghost use Rattle.rows.specs.Lists.{lists_of};
ghost use Rattle.abi.specs.Checks.{RecordChecked};
ghost use Rattle.abi.specs.Exported.{Exported, Sized};
ghost use Rattle.abi.specs.Rows.{RowsWritten, RowsRead};
ghost use Rattle.abi.specs.Stores.{BytesStored};
ghost use Rattle.abi.specs.Strings.{LiteralRead};
ghost use Rattle.abi.specs.Tables.{TableMade};
ghost use Rattle.columns.specs.Called.{Stores};
ghost use Rattle.columns.specs.Columns.{bodies, body_bytes};
ghost use Rattle.commands.specs.Table.{table_lists};
ghost use Rattle.routines.specs.Called.{Makes};

use abi::check::cakirotu_check as check;
use abi::export::{cakirotu_list as list, cakirotu_size as size};
use abi::file::{cakirotu_read_rows as read_rows, cakirotu_write_rows as write_rows};
use abi::routine::cakirotu_routine as routine;
use abi::store::{cakirotu_from_columns as from_columns, cakirotu_to_columns as to_columns};
use abi::string::cakirotu_read_literal as read_literal;
use abi::table::cakirotu_command_table as command_table;

// Lists the blocks from `from` up to `to` of a record: answers 0, or the number of the first question that gets a no. Nothing is
// demanded of the caller.
#[unsafe(no_mangle)]
pub extern "C" fn cakirotu_list(
    rec: &[u8],
    from: usize,
    to: usize,
    text: &mut [u8],
    ends: &mut [u32],
    kinds: &mut [u8],
    addresses: &mut [u64],
    marks: &mut [u16],
    places: &mut [u16],
    lines: &mut [u32],
    sizes: &mut [u64],
) -> u8
    ensures { Exported rec.now from to
        (lists_of text.old ends.old kinds.old addresses.old marks.old places.old lines.old)
        (lists_of text.new ends.new kinds.new addresses.new marks.new places.new lines.new)
        sizes.old sizes.new result }
{
    list(
        rec, from, to, text, ends, kinds, addresses, marks, places, lines, sizes,
    )
}

// The sizes and the looks of the listing of the blocks from `from` up to `to`: answers 0, or the number of the first question before 12 that gets a
// no. Nothing is demanded of the caller.
#[unsafe(no_mangle)]
pub extern "C" fn cakirotu_size(rec: &[u8], from: usize, to: usize, sizes: &mut [u64]) -> u8
    ensures { Sized rec.now from to sizes.old sizes.new result }
{
    size(rec, from, to, sizes)
}

// Writes lists of these sizes as a file of rows: answers 0, 16 or 12. Nothing is demanded of the caller.
#[unsafe(no_mangle)]
pub extern "C" fn cakirotu_write_rows(
    text: &[u8],
    ends: &[u32],
    kinds: &[u8],
    addresses: &[u64],
    marks: &[u16],
    places: &[u16],
    lines: &[u32],
    sizes: &[u64],
    out: &mut [u8],
    size: &mut [u64],
) -> u8
    ensures { RowsWritten
        (lists_of text.now ends.now kinds.now addresses.now marks.now places.now lines.now)
        sizes.now out.old out.new size.old size.new result }
{
    write_rows(
        text, ends, kinds, addresses, marks, places, lines, sizes, out, size,
    )
}

// Reads a file of rows into lists: answers 0, 16 or 12 to 14. Nothing is demanded of the caller.
#[unsafe(no_mangle)]
pub extern "C" fn cakirotu_read_rows(
    file: &[u8],
    text: &mut [u8],
    ends: &mut [u32],
    kinds: &mut [u8],
    addresses: &mut [u64],
    marks: &mut [u16],
    places: &mut [u16],
    lines: &mut [u32],
    sizes: &mut [u64],
) -> u8
    ensures { RowsRead file.now
        (lists_of text.old ends.old kinds.old addresses.old marks.old places.old lines.old)
        (lists_of text.new ends.new kinds.new addresses.new marks.new places.new lines.new)
        sizes.old sizes.new result }
{
    read_rows(
        file, text, ends, kinds, addresses, marks, places, lines, sizes,
    )
}

// The string of a literal token: answers 0, 17 or 12. Nothing is demanded of the caller.
#[unsafe(no_mangle)]
pub extern "C" fn cakirotu_read_literal(
    kind: u8,
    text: &[u8],
    out: &mut [u8],
    values: &mut [u64],
) -> u8
    ensures { LiteralRead kind text.now out.old out.new values.old values.new result }
{
    read_literal(kind, text, out, values)
}

// The command table of lists of these sizes: answers 0, 19, 16 or 12 to 14. Nothing is demanded of the caller.
#[unsafe(no_mangle)]
pub extern "C" fn cakirotu_command_table(
    text: &[u8],
    ends: &[u32],
    kinds: &[u8],
    addresses: &[u64],
    marks: &[u16],
    places: &[u16],
    lines: &[u32],
    sizes: &[u64],
    call: &[u8],
    register: &[u8],
    bytes: &mut [u8],
    rows: &mut [u64],
    calls: &mut [u64],
    counts: &mut [u64],
) -> u8
    ensures { TableMade
        (lists_of text.now ends.now kinds.now addresses.now marks.now places.now lines.now)
        sizes.now call.now register.now
        (table_lists bytes.old rows.old calls.old) (table_lists bytes.new rows.new calls.new)
        counts.old counts.new result }
{
    command_table(
        text, ends, kinds, addresses, marks, places, lines, sizes, call, register, bytes, rows,
        calls, counts,
    )
}

// Whether a record's listing may be followed: answers 0, or the number of the first question before 12 that gets a no. Nothing is
// demanded of the caller.
#[unsafe(no_mangle)]
pub extern "C" fn cakirotu_check(rec: &[u8], broken: &mut [u64]) -> u8
    ensures { RecordChecked rec.now broken.old broken.new result }
{
    check(rec, broken)
}

// A record with its instruction bodies by columns: answers 0, 1 to 4 or 12. Nothing is demanded of the caller.
#[unsafe(no_mangle)]
pub extern "C" fn cakirotu_to_columns(rec: &[u8], out: &mut [u8], size: &mut [u64]) -> u8
    ensures { BytesStored (Stores bodies body_bytes rec.now out.old out.new) size.old size.new result }
{
    to_columns(rec, out, size)
}

// The way back: answers 0, 1 to 4 or 12. Nothing is demanded of the caller.
#[unsafe(no_mangle)]
pub extern "C" fn cakirotu_from_columns(rec: &[u8], out: &mut [u8], size: &mut [u64]) -> u8
    ensures { BytesStored (Stores body_bytes bodies rec.now out.old out.new) size.old size.new result }
{
    from_columns(rec, out, size)
}

// Small routine k as a record: answers 0, 18 or 12. Nothing is demanded of the caller.
#[unsafe(no_mangle)]
pub extern "C" fn cakirotu_routine(k: usize, out: &mut [u8], size: &mut [u64]) -> u8
    ensures { BytesStored (Makes k out.old out.new) size.old size.new result }
{
    routine(k, out, size)
}
