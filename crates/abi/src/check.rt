// The checker over numbers and lists, as C has them.
ghost use Rattle.std.specs.Prelude.{[], ◌∷◌, ◌≡◌};
ghost use Rattle.lists.specs.Put.{put};
ghost use Rattle.checker.specs.Called.{number_of, broken_of};
ghost use Rattle.abi.specs.Checks.{RecordChecked};

use checker::assumption::Unfollowed;
use checker::check::check_record;
use lists::stores::put_slice;

// The number of the assumption that is broken, 0 if none is and with a number; answers the number.
fn put_broken(broken: &mut [u64], answer: Result<(), Unfollowed>) -> u8
    ensures number { result ≡ number_of answer }
    ensures broken { broken.new ≡ put 0 (broken_of answer ∷ []) broken.old }
{
    let (number, assumption) = match answer {
        Ok(()) => (0, 0),
        Err(Unfollowed::Breaks(a)) => (0, u8::from(a)),
        Err(Unfollowed::No(q)) => (u8::from(q), 0),
    };
    put_slice(broken, &[u64::from(assumption)]);
    number
}

// Whether a record's listing may be followed: answers 0, or the number of the first question before 12 that gets a no. Nothing is
// demanded of the caller.
pub fn cakirotu_check(rec: &[u8], broken: &mut [u64]) -> u8
    ensures { RecordChecked rec.now broken.old broken.new result }
{
    put_broken(broken, check_record(rec))
}
