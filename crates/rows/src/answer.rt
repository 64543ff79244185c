// How much a listing has, how much room was lent, and questions 12 to 14.
ghost use Rattle.std.specs.Prelude.{◌≡◌};
ghost use Rattle.lists.specs.Question.{Answers};
ghost use Rattle.rows.specs.Lists.{room_no};

use lists::question::Question;

#[derive(Clone, Copy)]
pub struct Sizes {
    pub text: usize,
    pub tokens: usize,
    pub lines: usize,
}

// The lengths of the seven lists.
#[derive(Clone, Copy)]
pub struct Rooms {
    pub text: usize,
    pub ends: usize,
    pub kinds: usize,
    pub addresses: usize,
    pub marks: usize,
    pub places: usize,
    pub lines: usize,
}

// Questions 12 to 14.
#[tactic(auto, unfolding(crate::specs::Lists::room_no))]
pub fn ask_room(sizes: Sizes, rooms: Rooms) -> Result<(), Question>
    ensures { Answers (room_no sizes rooms) tt result }
{
    if rooms.text < sizes.text {
        return Err(Question::TextRoom);
    }
    if rooms.ends.min(rooms.kinds) < sizes.tokens {
        return Err(Question::TokenRoom);
    }
    let lines = rooms.addresses.min(rooms.marks).min(rooms.places);
    if lines.min(rooms.lines) < sizes.lines {
        return Err(Question::LineRoom);
    }
    Ok(())
}
