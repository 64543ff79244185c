// Reading rows: one pass that checks and counts, and one that stores.
ghost use Rattle.std.specs.Prelude.{◌≡◌, true, ◌≤◌};
ghost use Rattle.lists.specs.Question.{Answers};
ghost use Rattle.rows.specs.Lists.{lists_of, Stands};
ghost use Rattle.rows.specs.Rows.{row_lists};
ghost use Rattle.csv_rows.specs.Reading.{is_rows, rows_read};
ghost use Rattle.csv_rows.specs.Called.{Reads};
ghost use Rattle.csv_rows.specs.Filling.{sizes_read, counted, read_no};

use crate::machine::{At, Effect, effect_of, is_start, kind_of, mark_of, next};
use lists::question::Question;
use lists::stores::store;
use rows::answer::{Rooms, Sizes, ask_room};

// Counts text bytes, token ends and row ends, if the bytes are rows.
fn measure(s: &[u8]) -> Option<Sizes>
    ensures { result ≡ counted s.now }
{
    let mut t = At::Start;
    let mut x: usize = 0;
    let mut n: usize = 0;
    let mut l: usize = 0;
    for &c in s {
        match effect_of(t, c) {
            Effect::Byte => x += 1,
            Effect::TokenEnd => n += 1,
            Effect::RowEnd => l += 1,
            _ => {}
        }
        t = next(t, c);
    }
    if is_start(t) {
        return Some(Sizes {
            text: x,
            tokens: n,
            lines: l,
        });
    }
    None
}

// The lists of rows that are accepted.
fn fill(
    s: &[u8],
    text: &mut [u8],
    ends: &mut [u32],
    kinds: &mut [u8],
    addresses: &mut [u64],
    marks: &mut [u16],
    places: &mut [u16],
    lines: &mut [u32],
)
    requires { (is_rows s.now ≡ true) × ((sizes_read s.now).text ≤ 4294967295) × ((sizes_read s.now).tokens ≤ 4294967295) }
    ensures { Stands (row_lists (rows_read s.now))
        (lists_of text.old ends.old kinds.old addresses.old marks.old places.old lines.old)
        (lists_of text.new ends.new kinds.new addresses.new marks.new places.new lines.new) }
{
    let mut t = At::Start;
    let mut x: usize = 0;
    let mut n: usize = 0;
    let mut l: usize = 0;
    for &c in s {
        match effect_of(t, c) {
            Effect::Silent => {}
            Effect::Byte => {
                store(text, x, c);
                x += 1;
            }
            Effect::Kind => store(kinds, n, kind_of(c)),
            Effect::TokenEnd => {
                store(ends, n, x as u32);
                n += 1;
            }
            Effect::Head(h, a, d, p) => {
                store(addresses, l, a);
                store(marks, l, mark_of(h, d));
                store(places, l, p);
            }
            Effect::RowEnd => {
                store(lines, l, n as u32);
                l += 1;
            }
        }
        t = next(t, c);
    }
}

// The questions of a file of rows and the room lent: how much the rows have, where none gets a no.
#[tactic(auto, unfolding(crate::specs::Filling::read_no))]
fn sizes(s: &[u8], rooms: Rooms) -> Result<Sizes, Question>
    ensures { Answers (read_no s.now rooms) (sizes_read s.now) result }
{
    let sizes = measure(s).ok_or(Question::Rows)?;
    if (4294967295 < sizes.text) | (4294967295 < sizes.tokens) {
        return Err(Question::Rows);
    }
    ask_room(sizes, rooms)?;
    Ok(sizes)
}

// The lists of a file of rows.
// Seven lists are seven parameters where they are filled: of a struct of seven `&mut` lists the proof did not close.
pub fn read_rows(
    s: &[u8],
    text: &mut [u8],
    ends: &mut [u32],
    kinds: &mut [u8],
    addresses: &mut [u64],
    marks: &mut [u16],
    places: &mut [u16],
    lines: &mut [u32],
) -> Result<Sizes, Question>
    ensures { Reads s.now
        (lists_of text.old ends.old kinds.old addresses.old marks.old places.old lines.old)
        (lists_of text.new ends.new kinds.new addresses.new marks.new places.new lines.new) result }
{
    let rooms = Rooms {
        text: text.len(),
        ends: ends.len(),
        kinds: kinds.len(),
        addresses: addresses.len(),
        marks: marks.len(),
        places: places.len(),
        lines: lines.len(),
    };
    let sizes = sizes(s, rooms)?;
    fill(s, text, ends, kinds, addresses, marks, places, lines);
    Ok(sizes)
}
