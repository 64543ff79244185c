// The way back from a literal to its string over numbers and lists, as C has them.
ghost use Rattle.std.specs.Prelude.{◌≡◌};
ghost use Rattle.lists.specs.Put.{put};
ghost use Rattle.lists.specs.Question.{number_of};
ghost use Rattle.abi.specs.Strings.{value_list, LiteralRead};

use crate::sizes::put_values;
use lists::question::Question;
use strings::reading::{Values, read_literal};

// How many bytes, whether the string was wide and whether it was cut.
fn put_string(values: &mut [u64], answer: Result<Values, Question>) -> u8
    ensures number { result ≡ number_of answer }
    ensures values { values.new ≡ put 0 (value_list answer) values.old }
{
    match answer {
        Ok(s) => put_values(
            values,
            Ok([s.count as u64, u64::from(s.wide), u64::from(s.cut)]),
        ),
        Err(q) => put_values::<3>(values, Err(q)),
    }
}

// The string of a literal token: answers 0, 17 or 12. Nothing is demanded of the caller.
pub fn cakirotu_read_literal(kind: u8, text: &[u8], out: &mut [u8], values: &mut [u64]) -> u8
    ensures { LiteralRead kind text.now out.old out.new values.old values.new result }
{
    put_string(values, read_literal(kind, text, out))
}
