// Lists the record that is read from standard input: the page of its whole range, or `no` and a number.
#![tactic(auto)]

ghost use Rattle.std.specs.Prelude.{◌≤◌, length, take};
ghost use Rattle.page.specs.Page.{page_of};
ghost use Rattle.program.specs.Output.{Prints};

use lists::parts::part;
use page::number::put_refusal;
use page::page::put_page;
use pseudo::call::list;
use record::header::read_header;
use rows::listing::Listing;
use stdio::input::{bytes_read, read_input};
use stdio::output::print_or_refuse;

// What the program prints of a record; answers how many bytes that is. `lines=900` and LF are 10, each of 900 lines has 16 digits,
// a space, at most 2 * 255 spaces and LF beside its text, and the text at most 65,536: 540,746 bytes in all.
// No heap: what it fills are arrays.
fn answer(rec: &[u8], out: &mut [u8]) -> usize
    requires { 540746 ≤ length out.old }
    ensures { Prints page_of rec.now (take result out.new) }
{
    let to = usize::from(read_header(rec).blocks);
    let mut text = [0u8; 65536];
    let mut ends = [0u32; 16384];
    let mut kinds = [0u8; 16384];
    let mut addresses = [0u64; 900];
    let mut marks = [0u16; 900];
    let mut places = [0u16; 900];
    let mut lines = [0u32; 900];
    let listed = list(
        rec,
        0,
        to,
        &mut text,
        &mut ends,
        &mut kinds,
        &mut addresses,
        &mut marks,
        &mut places,
        &mut lines,
    );
    match listed.answer {
        Ok(sizes) => {
            let all = Listing {
                text: &text,
                ends: &ends,
                kinds: &kinds,
                addresses: &addresses,
                marks: &marks,
                places: &places,
                lines: &lines,
            };
            put_page(out, sizes.lines, &all.cut(sizes))
        }
        Err(q) => put_refusal(out, q),
    }
}

// Reads at most 65,537 bytes, one more than a record may have. No bytes are no record: where the input cannot be read, question 1 gets a no.
// `to_csv` reads and prints likewise: its `answer` is another, and a function is no parameter of a program's main.
// No heap: what it fills are arrays.
fn main(rt: HostRuntime) {
    let mut rec = [0u8; 65537];
    let n = bytes_read(
        read_input(&mut rt.stdin(), &mut rec),
        0,
        b"listing",
        &rt.stderr(),
    );
    let mut out = [0u8; 540746];
    let m = answer(part(&rec, 0, n), &mut out);
    let _ = print_or_refuse(
        part(&out, 0, m),
        b"listing: standard output cannot be written\n",
        &mut rt.stdout(),
        &mut rt.stderr(),
    );
}
