// The assumptions under which a listing may be followed, each with the number that stands for it outside.
ghost use Rattle.std.specs.Prelude.{◌≡◌};
ghost use Rattle.checker.specs.Number.{assumption_number, Breaks, No};

use lists::question::Question;

#[derive(Clone, Copy, PartialEq, Eq)]
pub enum Assumption {
    HasBlocks = 1,
    TurnsLast = 2,
    LastsUnmarked = 3,
    SetsNoBranch = 4,
    NoCase = 5,
    StartsUnnamed = 6,
    NamesPlain = 7,
    NoFlowWords = 8,
    JumpsLed = 9,
    OthersLed = 10,
    BranchesInside = 11,
    GotosLabelled = 12,
}

impl From<Assumption> for u8 {
    ghost from_gives = { λ a n. n ≡ assumption_number a };

    fn from(a: Assumption) -> u8 {
        a as u8
    }
}

// Why a record's listing may not be followed: the first assumption that it breaks, or the first question that it gets a no to.
#[derive(Clone, Copy, PartialEq, Eq)]
pub enum Unfollowed {
    Breaks(Assumption),
    No(Question),
}

impl From<Assumption> for Unfollowed {
    ghost from_gives = { λ a e. e ≡ Breaks a };

    fn from(a: Assumption) -> Unfollowed {
        Unfollowed::Breaks(a)
    }
}

impl From<Question> for Unfollowed {
    ghost from_gives = { λ q e. e ≡ No q };

    fn from(q: Question) -> Unfollowed {
        Unfollowed::No(q)
    }
}
