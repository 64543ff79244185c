// Prints the listing that rows carry, read from standard input: its page, or `no 16`.
#![tactic(auto)]

ghost use Rattle.std.specs.Prelude.{◌≡◌, [], ◌-◌, ◌<◌, ◌≤◌, eqb, length, take};
ghost use Rattle.lists.specs.Choice.{pick};
ghost use Rattle.lists.specs.Put.{put};
ghost use Rattle.lists.specs.Question.{number};
ghost use Rattle.page.specs.Page.{refusal};
ghost use Rattle.from_csv.specs.Output.{part_count, page_part, Prints};

use csv_rows::reading::read_rows;
use lists::parts::part;
use lists::question::Question;
use page::number::put_refusal;
use page::page::{put_count, put_lines};
use rows::listing::Listing;
use stdio::input::{bytes_read, read_input};
use stdio::output::print_or_refuse;

// How many of n lines a part has that begins with line `first`.
#[tactic(auto, using(crate::proofs::Parts::part_min))]
fn part_count(n: usize, first: usize) -> usize
    ensures { (result ≡ part_count (n - first)) × (result ≤ 2000) }
{
    n.saturating_sub(first).min(2000)
}

// Part p of the page of a listing.
fn put_part(out: &mut [u8], p: usize, l: &Listing<'_>) -> usize
    requires { (p < 11) × (length l.now.text ≤ 262144) × (length l.now.addresses ≤ 21845) }
    ensures end { result ≡ length (page_part l.now p) }
    ensures text { out.new ≡ put 0 (page_part l.now p) out.old }
{
    let n = l.addresses.len();
    let first = 2000 * p;
    let k = part_count(n, first);
    if p == 0 {
        let at = put_count(out, n as u16);
        return put_lines(out, at, first, k, l);
    }
    put_lines(out, 0, first, k, l)
}

// A refusal is part 0, and there is no other.
fn put_refused(out: &mut [u8], p: usize, q: Question) -> usize
    ensures end { (result ≡ length (pick (eqb p 0) (refusal (number q)) [])) × (result ≤ 10) }
    ensures text { out.new ≡ put 0 (pick (eqb p 0) (refusal (number q)) []) out.old }
{
    if p == 0 {
        return put_refusal(out, q);
    }
    0
}

// `answer` with lists that suffice: 262,144 bytes of rows have at most so many bytes of text, tokens (of 6 bytes or more) and lines (of 12
// or more). Seven lists are seven parameters where they are filled: of a struct of seven `&mut` lists the proof did not close.
fn answer_with(
    rows: &[u8],
    p: usize,
    out: &mut [u8],
    text: &mut [u8],
    ends: &mut [u32],
    kinds: &mut [u8],
    addresses: &mut [u64],
    marks: &mut [u16],
    places: &mut [u16],
    lines: &mut [u32],
) -> usize
    requires part { p < 11 }
    requires room { (262144 ≤ length text.old) × (43690 ≤ length ends.old) × (43690 ≤ length kinds.old) × (21845 ≤ length addresses.old) × (21845 ≤ length marks.old) × (21845 ≤ length places.old) × (21845 ≤ length lines.old) }
    ensures end { result ≤ 1318156 }
    ensures whole { 1318156 ≤ length out.old → Prints rows.now p (take result out.new) }
{
    if rows.len() > 262144 {
        return put_refused(out, p, Question::Rows);
    }
    match read_rows(rows, text, ends, kinds, addresses, marks, places, lines) {
        Ok(sizes) => {
            let all = Listing {
                text,
                ends,
                kinds,
                addresses,
                marks,
                places,
                lines,
            };
            put_part(out, p, &all.cut(sizes))
        }
        Err(q) => put_refused(out, p, q),
    }
}

// Part p of what the program prints of rows; answers how many bytes that is. `lines=21845` and LF are 12, each of 2,000 lines has 16 digits,
// a space, at most 2 * 255 spaces and LF beside its text, and the text at most 262,144: 1,318,156 bytes in all.
// No heap: what it fills are arrays.
fn answer(rows: &[u8], p: usize, out: &mut [u8]) -> usize
    requires { (p < 11) × (1318156 ≤ length out.old) }
    ensures { Prints rows.now p (take result out.new) }
{
    let mut text = [0u8; 262144];
    let mut ends = [0u32; 43690];
    let mut kinds = [0u8; 43690];
    let mut addresses = [0u64; 21845];
    let mut marks = [0u16; 21845];
    let mut places = [0u16; 21845];
    let mut lines = [0u32; 21845];
    answer_with(
        rows,
        p,
        out,
        &mut text,
        &mut ends,
        &mut kinds,
        &mut addresses,
        &mut marks,
        &mut places,
        &mut lines,
    )
}

// Reads at most 262,145 bytes, one more than a file of rows may have.
// No heap: what it fills are arrays.
fn main(rt: HostRuntime) {
    let mut rows = [0u8; 262145];
    let n = bytes_read(
        read_input(&mut rt.stdin(), &mut rows),
        262145,
        b"from_csv",
        &rt.stderr(),
    );
    let mut out = [0u8; 1318156];
    for p in 0..11 {
        let m = answer(part(&rows, 0, n), p, &mut out);
        if m == 0 {
            return;
        }
        if !print_or_refuse(
            part(&out, 0, m),
            b"from_csv: standard output cannot be written\n",
            &mut rt.stdout(),
            &mut rt.stderr(),
        ) {
            return;
        }
    }
}
