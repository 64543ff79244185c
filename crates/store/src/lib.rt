// What the programs for a store of records print.
#![tactic(auto)]

ghost use Rattle.std.specs.Prelude.{◌≤◌, length, take};
ghost use Rattle.columns.specs.Columns.{bodies, body_bytes};
ghost use Rattle.store.specs.Output.{Prints};

use columns::store::{from_columns, to_columns};
use page::number::put_stored;

// A record with its bodies by columns, or `no` and the number; answers how many bytes that is. A record has at most 64,336.
pub fn put_by_columns(rec: &[u8], out: &mut [u8]) -> usize
    requires { 65536 ≤ length out.old }
    ensures { Prints bodies body_bytes rec.now (take result out.new) }
{
    let answer = to_columns(rec, out);
    put_stored(out, answer)
}

// The way back.
pub fn put_by_bodies(rec: &[u8], out: &mut [u8]) -> usize
    requires { 65536 ≤ length out.old }
    ensures { Prints body_bytes bodies rec.now (take result out.new) }
{
    let answer = from_columns(rec, out);
    put_stored(out, answer)
}
