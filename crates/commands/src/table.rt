// The command table of a listing's lists: its sizes, its rows one after the other, and the call.
ghost use Rattle.std.specs.Prelude.{◌≡◌, ◌+◌, ◌*◌, ◌≤◌, ◌<◌, ◌^◌, length, take, set};
ghost use Rattle.lists.specs.Put.{put};
ghost use Rattle.lists.specs.Question.{Answers};
ghost use Rattle.commands.specs.Table.{table_lists};
ghost use Rattle.commands.specs.Called.{Makes};
ghost use Rattle.commands.specs.Making.{made, count_of, no_mark, room_no, Measured, Fills};

use crate::lines::calls_to;
use crate::set::bytes_for;
use csv_rows::held::lists_hold;
use lists::parts::part;
use lists::question::Question;
use lists::reads::element_or;
use lists::stores::{put_slice, store};
use rows::answer::Sizes;
use rows::listing::Listing;

// How many bytes and rows a table has.
#[derive(Clone, Copy)]
pub struct Size {
    pub bytes: usize,
    pub rows: usize,
}

// The sizes of the table of the first m lines.
// No heap: what it fills are arrays.
fn measure(l: &Listing<'_>, m: usize, call: &[u8], register: &[u8]) -> Size
    requires { m < 2 ^ 32 }
    ensures { Measured (made l.now call.now register.now m) result.bytes result.rows }
{
    let mut found = [0u8; 80];
    let mut x: usize = 0;
    let mut n: usize = 0;
    for k in 0..m {
        if calls_to(l, call, k) {
            x += bytes_for(l, register, k, &mut found).unwrap_or(0);
            n += 1;
        }
    }
    Size { bytes: x, rows: n }
}

// A row's number, and its bytes from x on, as many of those found as are set; answers where they end.
// The row is a number, twice the end and 1 if none are set, because the C interface lends a list of numbers for it.
fn put_row(
    bytes: &mut [u8],
    rows: &mut [u64],
    x: usize,
    n: usize,
    c: Option<usize>,
    found: &[u8],
) -> usize
    requires { x + count_of c ≤ length bytes.old }
    ensures end { result ≡ x + count_of c }
    ensures bytes { bytes.new ≡ put x (take (count_of c) found.now) bytes.old }
    ensures row { rows.new ≡ set rows.old n (2 * result + no_mark c) }
{
    match c {
        Some(s) => {
            let e = x + s;
            put_slice(&mut bytes[x..], part(found, 0, s));
            store(rows, n, 2 * (e as u64));
            e
        }
        None => {
            store(rows, n, 2 * (x as u64) + 1);
            x
        }
    }
}

// The table of the first m lines, from the start of its lists on.
// No heap: what it fills are arrays.
#[tactic(auto, using(crate::proofs::Turns::call_room))]
fn fill(
    l: &Listing<'_>,
    m: usize,
    call: &[u8],
    register: &[u8],
    bytes: &mut [u8],
    rows: &mut [u64],
    calls: &mut [u64],
)
    requires lines { m < 2 ^ 32 }
    requires room { length (made l.now call.now register.now m).bytes ≤ length bytes.old }
    ensures { Fills (made l.now call.now register.now m) (table_lists bytes.old rows.old calls.old) (table_lists bytes.new rows.new calls.new) }
{
    let mut found = [0u8; 80];
    let mut x: usize = 0;
    let mut n: usize = 0;
    for k in 0..m {
        if calls_to(l, call, k) {
            let c = bytes_for(l, register, k, &mut found);
            x = put_row(bytes, rows, x, n, c, &found);
            store(calls, n, element_or(l.addresses, k, 0));
            n += 1;
        }
    }
}

// Questions 12 to 14, of lists of these lengths.
#[tactic(auto, unfolding(crate::specs::Making::room_no))]
fn ask_room(size: Size, bytes: usize, rows: usize, calls: usize) -> Result<(), Question>
    ensures { Answers (room_no size.bytes size.rows bytes rows calls) tt result }
{
    if bytes < size.bytes {
        return Err(Question::TextRoom);
    }
    if rows < size.rows {
        return Err(Question::TokenRoom);
    }
    if calls < size.rows {
        return Err(Question::LineRoom);
    }
    Ok(())
}

// The command table of lists of these sizes, for calls by a name and what a register is set to before them: bytes, rows and the calls'
// addresses, from the start of each list on. An empty name is Question::Names, lists that hold no lines that rows can carry are Question::Rows,
// lists that are too short are questions 12 to 14; then nothing is changed.
#[tactic(auto, using(crate::proofs::Called::lines_few))]
pub fn command_table(
    l: &Listing<'_>,
    sizes: Sizes,
    call: &[u8],
    register: &[u8],
    bytes: &mut [u8],
    rows: &mut [u64],
    calls: &mut [u64],
) -> Result<Size, Question>
    ensures { Makes l.now sizes call.now register.now (table_lists bytes.old rows.old calls.old) (table_lists bytes.new rows.new calls.new) result }
{
    if (call.len() == 0) | (register.len() == 0) {
        return Err(Question::Names);
    }
    if !lists_hold(l, sizes) {
        return Err(Question::Rows);
    }
    l.numbers_fit();
    let size = measure(l, sizes.lines, call, register);
    ask_room(size, bytes.len(), rows.len(), calls.len())?;
    fill(l, sizes.lines, call, register, bytes, rows, calls);
    Ok(size)
}
