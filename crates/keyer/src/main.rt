// Prints the command table of rows for the keyer: reads the call's name, LF, the register's name, LF and rows from standard input.
#![tactic(auto)]

ghost use Rattle.std.specs.Prelude.{◌≡◌, true, ◌≤◌, length, take};
ghost use Rattle.rows.specs.Rows.{holds_rows};
ghost use Rattle.keyer.specs.Output.{named, Prints};
ghost use Rattle.keyer.specs.Parts.{line_size, commands_text, PrintsTable};

use commands::printed::put_table;
use commands::table::command_table;
use csv_rows::reading::read_rows;
use lists::parts::{from, part};
use lists::question::Question;
use page::number::put_refusal;
use rows::answer::Sizes;
use rows::listing::Listing;
use stdio::input::{bytes_read, read_input};
use stdio::output::print_or_refuse;

// How many bytes of a text stand before its first LF; all of them if it has none.
fn line_size(s: &[u8]) -> usize
    ensures { (result ≡ line_size s.now) × (result ≤ length s.now) }
{
    s.iter().position(|&b| b == b'\n').unwrap_or(s.len())
}

// The text of the table of lists that hold at most 5,461 lines: each line has one row at most, of at most 80 bytes.
fn put_commands(
    out: &mut [u8],
    l: &Listing<'_>,
    sizes: Sizes,
    call: &[u8],
    register: &[u8],
) -> usize
    requires lists { (holds_rows l.now sizes.text sizes.tokens sizes.lines ≡ true) × (sizes.lines ≤ 5461) }
    requires names { named call.now register.now ≡ true }
    requires room { 972058 ≤ length out.old }
    ensures { take result out.new ≡ commands_text l.now sizes call.now register.now }
{
    let mut bytes = [0u8; 436880];
    let mut rows = [0u64; 5461];
    let mut calls = [0u64; 5461];
    match command_table(l, sizes, call, register, &mut bytes, &mut rows, &mut calls) {
        Ok(size) => put_table(
            out,
            part(&bytes, 0, size.bytes),
            part(&rows, 0, size.rows),
            part(&calls, 0, size.rows),
            size.rows,
        ),
        Err(q) => put_refusal(out, q),
    }
}

// `answer_rows` with lists that suffice: 65,536 bytes of rows have at most so many bytes of text, tokens (of 6 bytes or more) and lines (of
// 12 or more). Seven lists are seven parameters where they are filled: of a struct of seven `&mut` lists the proof did not close.
fn answer_with(
    call: &[u8],
    register: &[u8],
    file: &[u8],
    out: &mut [u8],
    text: &mut [u8],
    ends: &mut [u32],
    kinds: &mut [u8],
    addresses: &mut [u64],
    marks: &mut [u16],
    places: &mut [u16],
    lines: &mut [u32],
) -> usize
    requires input { (length file.now ≤ 65536) × (named call.now register.now ≡ true) × (972058 ≤ length out.old) }
    requires room { (65536 ≤ length text.old) × (10922 ≤ length ends.old) × (10922 ≤ length kinds.old) × (5461 ≤ length addresses.old) × (5461 ≤ length marks.old) × (5461 ≤ length places.old) × (5461 ≤ length lines.old) }
    ensures { PrintsTable call.now register.now file.now (take result out.new) }
{
    match read_rows(file, text, ends, kinds, addresses, marks, places, lines) {
        Ok(sizes) => {
            let l = Listing {
                text,
                ends,
                kinds,
                addresses,
                marks,
                places,
                lines,
            };
            put_commands(out, &l, sizes, call, register)
        }
        Err(q) => put_refusal(out, q),
    }
}

// What the program prints for two names and rows.
fn answer_rows(call: &[u8], register: &[u8], file: &[u8], out: &mut [u8]) -> usize
    requires { (length file.now ≤ 65536) × (named call.now register.now ≡ true) × (972058 ≤ length out.old) }
    ensures { PrintsTable call.now register.now file.now (take result out.new) }
{
    let mut text = [0u8; 65536];
    let mut ends = [0u32; 10922];
    let mut kinds = [0u8; 10922];
    let mut addresses = [0u64; 5461];
    let mut marks = [0u16; 5461];
    let mut places = [0u16; 5461];
    let mut lines = [0u32; 5461];
    answer_with(
        call,
        register,
        file,
        out,
        &mut text,
        &mut ends,
        &mut kinds,
        &mut addresses,
        &mut marks,
        &mut places,
        &mut lines,
    )
}

// What the program prints; answers how many bytes that is. Each of 5,461 rows has sixteen digits, a space, at most 160 digits and LF: 972,058
// bytes in all.
fn answer(input: &[u8], out: &mut [u8]) -> usize
    requires { 972058 ≤ length out.old }
    ensures { Prints input.now (take result out.new) }
{
    if input.len() > 65536 {
        return put_refusal(out, Question::Rows);
    }
    let n = line_size(input);
    let rest = from(input, n + 1);
    let m = line_size(rest);
    if m == rest.len() {
        return put_refusal(out, Question::Rows);
    }
    if (n == 0) | (m == 0) {
        return put_refusal(out, Question::Names);
    }
    answer_rows(part(input, 0, n), part(rest, 0, m), from(rest, m + 1), out)
}

// Reads at most 65,537 bytes, one more than an input may have.
// No heap: what it fills are arrays.
fn main(rt: HostRuntime) {
    let mut input = [0u8; 65537];
    let n = bytes_read(
        read_input(&mut rt.stdin(), &mut input),
        65537,
        b"keyer",
        &rt.stderr(),
    );
    let mut out = [0u8; 972058];
    let m = answer(part(&input, 0, n), &mut out);
    let _ = print_or_refuse(
        part(&out, 0, m),
        b"keyer: standard output cannot be written\n",
        &mut rt.stdout(),
        &mut rt.stderr(),
    );
}
