// The two calls. Nothing is demanded of the caller.
ghost use Rattle.std.specs.Prelude.{◌≡◌, ℕ, ◌*◌, ◌<◌};
ghost use Rattle.lists.specs.Question.{Answers};
ghost use Rattle.record.specs.declared.header.Header.{Header};
ghost use Rattle.record.specs.Header.{header_of};
ghost use Rattle.columns.specs.Columns.{bodies, body_bytes};
ghost use Rattle.columns.specs.Called.{store_no, Stores};

use crate::columns::put_rearranged;
use lists::question::Question;
use record::asked::sized_header;
use record::header::{Header, read_header};
use record::layout::bodies_at;

// Questions 1 to 4, then 12.
#[tactic(auto, unfolding(crate::specs::Called::store_no))]
fn ask_room(rec: &[u8], room: usize) -> Result<Header, Question>
    ensures { Answers (store_no rec.now room) (header_of rec.now) result }
{
    let h = sized_header(rec)?;
    if room < rec.len() {
        return Err(Question::TextRoom);
    }
    Ok(h)
}

// A record's bytes with its bodies, m rows of n bytes, by columns.
fn store(rec: &[u8], out: &mut [u8], m: usize, n: usize) -> Result<usize, Question>
    requires { (n * m ≡ 92 * (header_of rec.now).instructions) × (n < 65536) }
    ensures { (rows columns : Header → ℕ) → m ≡ rows (header_of rec.now) → n ≡ columns (header_of rec.now) → Stores rows columns rec.now out.old out.new result }
{
    let h = ask_room(rec, out.len())?;
    put_rearranged(out, rec, bodies_at(h), m, n);
    Ok(rec.len())
}

// A record with its bodies by columns: "byte 0 of every body, then byte 1 of every body, up to byte 91".
pub fn to_columns(rec: &[u8], out: &mut [u8]) -> Result<usize, Question>
    ensures { Stores bodies body_bytes rec.now out.old out.new result }
{
    store(rec, out, usize::from(read_header(rec).instructions), 92)
}

// The way back: rows and columns exchanged.
pub fn from_columns(rec: &[u8], out: &mut [u8]) -> Result<usize, Question>
    ensures { Stores body_bytes bodies rec.now out.old out.new result }
{
    store(rec, out, 92, usize::from(read_header(rec).instructions))
}
