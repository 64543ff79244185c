// The parts of a literal: where its characters begin, how many there are, and how it ends.
ghost use Rattle.strings.specs.Reading.{Opens, Characters, Ends, Measured};

use crate::character::first;
use lists::parts::from;
use lists::reads::u8_at;

// How many characters, and how many bytes they have.
#[derive(Clone, Copy)]
struct Run {
    count: usize,
    size: usize,
}

// What a literal says: whether the string was wide and whether it was cut, where the characters begin, and how many there are.
#[derive(Clone, Copy)]
pub struct Literal {
    pub wide: bool,
    pub cut: bool,
    pub start: usize,
    pub count: usize,
}

// How many bytes the opening has: 1, or 2 if wide.
#[tactic(auto, using(crate::proofs::Quotes::opens_not))]
fn opening_size(t: &[u8]) -> Option<usize>
    ensures { Opens t.now result }
{
    if u8_at(t, 0) == b'"' {
        return Some(1);
    }
    if (u8_at(t, 0) == b'L') & (u8_at(t, 1) == b'"') {
        return Some(2);
    }
    None
}

// The characters that a text begins with, 80 at most.
#[tactic(auto, using(crate::proofs::Characters::begins_none, crate::proofs::Characters::begins_more, crate::proofs::Characters::begins_last, crate::proofs::Characters::begins_all))]
fn characters(t: &[u8]) -> Run
    ensures { Characters t.now result.count result.size }
{
    let mut i: usize = 0;
    for n in 0..80 {
        let Some(c) = first(from(t, i)) else {
            return Run { count: n, size: i };
        };
        i += c.size;
    }
    Run { count: 80, size: i }
}

// Whether the literal was cut, if a text is what stands behind the last of its n characters.
#[tactic(auto, using(crate::proofs::Quotes::ends_whole, crate::proofs::Quotes::ends_cut, crate::proofs::Quotes::ends_not), unfolding(text::specs::Literal::closing))]
fn ending(t: &[u8], n: usize) -> Option<bool>
    ensures { Ends t.now n result }
{
    if t == b"\"".as_slice() {
        return Some(false);
    }
    if n == 80 {
        if t == b"\xe2\x80\xa6\"".as_slice() {
            return Some(true);
        }
    }
    None
}

// What a text says, if it is the literal of a string.
pub fn measure(t: &[u8]) -> Option<Literal>
    ensures { Measured t.now result }
{
    let at = opening_size(t)?;
    let inside = from(t, at);
    let run = characters(inside);
    let cut = ending(from(inside, run.size), run.count)?;
    Some(Literal {
        wide: at == 2,
        cut,
        start: at,
        count: run.count,
    })
}
