// The questions that calls ask, each with the number that stands for it outside.
ghost use Rattle.std.specs.Prelude.{◌≡◌};
ghost use Rattle.lists.specs.Question.{number};

use std::fmt;

#[derive(Clone, Copy, PartialEq, Eq)]
pub enum Question {
    Header = 1,
    Fields = 2,
    Limits = 3,
    Length = 4,
    Marks = 5,
    Starts = 6,
    EdgeKinds = 7,
    Bodies = 8,
    Atlas = 9,
    Spans = 10,
    Range = 11,
    TextRoom = 12,
    TokenRoom = 13,
    LineRoom = 14,
    Branches = 15,
    Rows = 16,
    Literal = 17,
    Routine = 18,
    Names = 19,
}

impl From<Question> for u8 {
    ghost from_gives = { λ q n. n ≡ number q };

    fn from(q: Question) -> u8 {
        q as u8
    }
}

impl fmt::Display for Question {
    fn fmt<W: fmt::Write>(&self, f: &mut fmt::Formatter<W>) -> fmt::Result {
        write!(f, "{}", u8::from(*self))
    }
}
