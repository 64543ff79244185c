// Records by columns and back over numbers and lists, as C has them.
ghost use Rattle.std.specs.Prelude.{◌≡◌, ℕ};
ghost use Rattle.lists.specs.Put.{put};
ghost use Rattle.columns.specs.Columns.{bodies, body_bytes};
ghost use Rattle.columns.specs.Called.{Stores};
ghost use Rattle.abi.specs.Stores.{bytes_list, number_by, BytesStored};

use crate::sizes::put_bytes;
use columns::store::{from_columns, to_columns};
use lists::stores::store;

// How many bytes are stored, zero with a number; answers the number.
pub fn put_stored<E: Into<u8>>(size: &mut [u64], answer: Result<usize, E>) -> u8
    ensures number { (value : E → ℕ) → ((x : E) (k : ℕ) → E.converts x k → k ≡ value x) → result ≡ number_by value answer }
    ensures size { size.new ≡ put 0 (bytes_list answer) size.old }
{
    match answer {
        Ok(n) => {
            store(size, 0, n as u64);
            0
        }
        Err(e) => {
            store(size, 0, 0);
            e.into()
        }
    }
}

// A record with its instruction bodies by columns: answers 0, 1 to 4 or 12. Nothing is demanded of the caller.
pub fn cakirotu_to_columns(rec: &[u8], out: &mut [u8], size: &mut [u64]) -> u8
    ensures { BytesStored (Stores bodies body_bytes rec.now out.old out.new) size.old size.new result }
{
    put_bytes(size, to_columns(rec, out))
}

// The way back: answers 0, 1 to 4 or 12. Nothing is demanded of the caller.
pub fn cakirotu_from_columns(rec: &[u8], out: &mut [u8], size: &mut [u64]) -> u8
    ensures { BytesStored (Stores body_bytes bodies rec.now out.old out.new) size.old size.new result }
{
    put_bytes(size, from_columns(rec, out))
}
