// From a literal token back to its string.
ghost use Rattle.strings.specs.Called.{Returns};
ghost use Rattle.strings.specs.Reading.{Filled};

use crate::character::first;
use crate::literal::measure;
use lists::parts::from;
use lists::question::Question;
use lists::stores::store;

// How many bytes a string has, whether it was wide, whether it was cut.
#[derive(Clone, Copy)]
pub struct Values {
    pub count: usize,
    pub wide: bool,
    pub cut: bool,
}

// The bytes of the n characters that a text begins with.
fn fill(t: &[u8], n: usize, out: &mut [u8])
    ensures { Filled t.now n out.old out.new }
{
    let mut i: usize = 0;
    for k in 0..n {
        let Some(c) = first(from(t, i)) else {
            return;
        };
        store(out, k, c.byte);
        i += c.size;
    }
}

// The string of a literal token, from the start of `out` on. What is no literal that a listing writes is Question::Literal, a list that is too
// short Question::TextRoom; then nothing is changed.
#[tactic(auto, using(crate::proofs::Answered::given_back))]
pub fn read_literal(kind: u8, text: &[u8], out: &mut [u8]) -> Result<Values, Question>
    ensures { Returns kind text.now out.old out.new result }
{
    if kind != 5 {
        return Err(Question::Literal);
    }
    let l = measure(text).ok_or(Question::Literal)?;
    if out.len() < l.count {
        return Err(Question::TextRoom);
    }
    fill(from(text, l.start), l.count, out);
    Ok(Values {
        count: l.count,
        wide: l.wide,
        cut: l.cut,
    })
}
