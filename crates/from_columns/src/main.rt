// Prints the record whose instruction bodies are read by columns from standard input, or `no` and a number.
#![tactic(auto)]

use lists::parts::part;
use stdio::input::{bytes_read, read_input};
use stdio::output::print_or_refuse;
use store::put_by_bodies;

// Reads at most 65,537 bytes, one more than a record may have. No bytes are no record: where the input cannot be read, question 1 gets a no.
// No heap: what it fills are arrays.
fn main(rt: HostRuntime) {
    let mut rec = [0u8; 65537];
    let n = bytes_read(
        read_input(&mut rt.stdin(), &mut rec),
        0,
        b"from_columns",
        &rt.stderr(),
    );
    let mut out = [0u8; 65536];
    let m = put_by_bodies(part(&rec, 0, n), &mut out);
    let _ = print_or_refuse(
        part(&out, 0, m),
        b"from_columns: standard output cannot be written\n",
        &mut rt.stdout(),
        &mut rt.stderr(),
    );
}
