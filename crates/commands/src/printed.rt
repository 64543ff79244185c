// A command table as text: a line for each row.
ghost use Rattle.std.specs.Prelude.{◌≡◌, true, ◌+◌, ◌≤◌, length};
ghost use Rattle.lists.specs.Put.{put};
ghost use Rattle.text.specs.Number.{hex_digits};
ghost use Rattle.csv_rows.specs.Writing.{Wrote};
ghost use Rattle.commands.specs.Table.{table_lists};
ghost use Rattle.commands.specs.Called.{byte_end};
ghost use Rattle.commands.specs.Printed.{pairs, value_text, row_line, table_text};

use csv_rows::numbers::put_sixteen;
use csv_rows::writing::text_between;
use lists::reads::element_or;
use lists::stores::store;
use text::number::digit_of;

// A byte as two upper hex digits.
fn put_pair(out: &mut [u8], at: usize, b: u8) -> usize
    requires { at + 2 ≤ length out.old }
    ensures { Wrote at (hex_digits true 2 b) out.old out.new result }
{
    let v = u64::from(b);
    store(out, at, digit_of(true, v / 16 % 16));
    store(out, at + 1, digit_of(true, v % 16));
    at + 2
}

// Bytes as pairs.
fn put_pairs(out: &mut [u8], at: usize, s: &[u8]) -> usize
    requires { at + length (pairs s.now) ≤ length out.old }
    ensures { Wrote at (pairs s.now) out.old out.new result }
{
    let mut p = at;
    for &b in s {
        p = put_pair(out, p, b);
    }
    p
}

// Where the bytes of the first j rows end.
fn byte_end(rows: &[u64], j: usize) -> usize
    ensures { result ≡ byte_end rows.now j }
{
    if j == 0 {
        return 0;
    }
    (element_or(rows, j - 1, 0) / 2) as usize
}

// The bytes of row j as pairs, or a dash if it has none.
fn put_value(out: &mut [u8], at: usize, bytes: &[u8], rows: &[u64], j: usize) -> usize
    requires { at + length (value_text bytes.now rows.now j) ≤ length out.old }
    ensures { Wrote at (value_text bytes.now rows.now j) out.old out.new result }
{
    let row = element_or(rows, j, 0);
    if row % 2 == 1 {
        store(out, at, b'-');
        return at + 1;
    }
    let e = (row / 2) as usize;
    put_pairs(out, at, text_between(bytes, byte_end(rows, j), e))
}

// The line of row j.
fn put_row_line(
    out: &mut [u8],
    at: usize,
    bytes: &[u8],
    rows: &[u64],
    addresses: &[u64],
    j: usize,
) -> usize
    requires { at + length (row_line (table_lists bytes.now rows.now addresses.now) j) ≤ length out.old }
    ensures { Wrote at (row_line (table_lists bytes.now rows.now addresses.now) j) out.old out.new result }
{
    let p = put_sixteen(out, at, element_or(addresses, j, 0));
    store(out, p, b' ');
    let q = put_value(out, p + 1, bytes, rows, j);
    store(out, q, b'\n');
    q + 1
}

// The lines of the first n rows of a table; answers how many bytes they have.
pub fn put_table(out: &mut [u8], bytes: &[u8], rows: &[u64], addresses: &[u64], n: usize) -> usize
    requires { length (table_text (table_lists bytes.now rows.now addresses.now) n) ≤ length out.old }
    ensures end { result ≡ length (table_text (table_lists bytes.now rows.now addresses.now) n) }
    ensures text { out.new ≡ put 0 (table_text (table_lists bytes.now rows.now addresses.now) n) out.old }
{
    let mut p: usize = 0;
    for j in 0..n {
        p = put_row_line(out, p, bytes, rows, addresses, j);
    }
    p
}
