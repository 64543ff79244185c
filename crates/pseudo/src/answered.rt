// What a call answers: a listing's sizes or a number, and how many edges were read for it.
ghost use Rattle.std.specs.Prelude.{◌≡◌};
ghost use Rattle.pseudo.specs.Called.{looks_of};

use rows::answer::Sizes;

#[derive(Clone, Copy)]
pub struct Answered<E> {
    pub answer: Result<Sizes, E>,
    pub looks: u64,
}

// An answer with the looks that were made for it: a refusal, of whatever type, reports none.
pub fn with_looks<E>(answer: Result<Sizes, E>, looks: u64) -> Answered<E>
    ensures answer { result.answer ≡ answer }
    ensures looks { result.looks ≡ looks_of looks answer }
{
    match answer {
        Ok(z) => Answered {
            answer: Ok(z),
            looks,
        },
        Err(e) => Answered {
            answer: Err(e),
            looks: 0,
        },
    }
}
