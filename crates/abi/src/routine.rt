// The small routines over numbers and lists, as C has them.
ghost use Rattle.routines.specs.Called.{Makes};
ghost use Rattle.abi.specs.Stores.{BytesStored};

use crate::sizes::put_bytes;
use routines::routine::routine;

// Small routine k as a record: answers 0, 18 or 12. Nothing is demanded of the caller.
pub fn cakirotu_routine(k: usize, out: &mut [u8], size: &mut [u64]) -> u8
    ensures { BytesStored (Makes k out.old out.new) size.old size.new result }
{
    put_bytes(size, routine(k, out))
}
