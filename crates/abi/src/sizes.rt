// The answers beside a number, in a list, as C has them.
ghost use Rattle.std.specs.Prelude.{◌≡◌};
ghost use Rattle.lists.specs.Put.{put};
ghost use Rattle.lists.specs.Question.{number_of};
ghost use Rattle.abi.specs.Exported.{values_in, size_list, answer_list};
ghost use Rattle.abi.specs.Stores.{bytes_list};

use crate::store::put_stored;
use lists::question::Question;
use lists::stores::{put_slice, store};
use pseudo::answered::Answered;
use rows::answer::Sizes;

// The values of an answer from the start of the list on, zeros with a number; answers the number.
pub fn put_values<const N: usize>(list: &mut [u64], answer: Result<[u64; N], Question>) -> u8
    ensures number { result ≡ number_of answer.entry }
    ensures values { list.new ≡ put 0 (values_in N answer.entry) list.old }
{
    match answer {
        Ok(values) => {
            put_slice(list, &values);
            0
        }
        Err(q) => {
            put_slice(list, &[0; N]);
            u8::from(q)
        }
    }
}

// How many bytes are stored.
pub fn put_bytes(size: &mut [u64], answer: Result<usize, Question>) -> u8
    ensures number { result ≡ number_of answer }
    ensures size { size.new ≡ put 0 (bytes_list answer) size.old }
{
    put_stored(size, answer)
}

// The sizes of an answer.
pub fn put_answer(sizes: &mut [u64], answer: Result<Sizes, Question>) -> u8
    ensures number { result ≡ number_of answer }
    ensures sizes { sizes.new ≡ put 0 (size_list answer) sizes.old }
{
    match answer {
        Ok(z) => put_values(sizes, Ok([z.text as u64, z.tokens as u64, z.lines as u64])),
        Err(q) => put_values::<3>(sizes, Err(q)),
    }
}

// The sizes and behind them the looks; answers the number.
pub fn put_answered(sizes: &mut [u64], r: Answered<Question>) -> u8
    ensures number { result ≡ number_of r.answer }
    ensures sizes { sizes.new ≡ put 0 (answer_list r.answer r.looks) sizes.old }
{
    let number = put_answer(sizes, r.answer);
    store(sizes, 3, r.looks);
    number
}
