// One piece of a line of a record: an operand, the memory operand or a condition.
ghost use Rattle.std.specs.Prelude.{◌≡◌, ◌≤◌, length};
ghost use Rattle.lists.specs.Choice.{pick};
ghost use Rattle.record.specs.Header.{header_of};
ghost use Rattle.codes.specs.Coded.{Coded};
ghost use Rattle.codes.specs.Tables.{table_bytes};
ghost use Rattle.operand.specs.Lent.{Rising, Lent};
ghost use Rattle.comparison.specs.Pieces.{answer, chosen_tokens, line_answer, has_room, is_listed, exported, LineCoded};

use crate::questions::record_first_no;
use codes::read::codes_of;
use codes::state::{put_end, start};
use codes::tables::{Tables, token_table};
use expressions::condition::{body_of, condition};
use operand::memory::mem;
use operand::operand::op;
use record::header::{Header, read_header};
use writer::write::write_listing;

// What is asked for: an operand, the memory operand read or as an address, or a condition.
fn code_chosen(
    codes: &mut [u64],
    tables: Tables<'_>,
    rec: &[u8],
    h: Header,
    first: u16,
    instruction: u16,
    what: u8,
)
    requires { Lent codes.old h rec.now }
    ensures { Coded table_bytes rec.now codes.old codes.new (chosen_tokens h rec.now first instruction what) }
{
    if 16 <= what {
        return condition(codes, tables, rec, h, first, instruction, what - 16);
    }
    let body = body_of(rec, h, instruction);
    if what < 5 {
        return op(codes, tables, rec, h, body, what);
    }
    mem(codes, tables, rec, h, body, what == 5)
}

// The same as a line of its own: it has at most 81 codes.
fn code_piece(
    codes: &mut [u64],
    tables: Tables<'_>,
    rec: &[u8],
    h: Header,
    first: u16,
    instruction: u16,
    what: u8,
)
    requires lent { Lent codes.old h rec.now }
    requires in_bounds { 86 ≤ length codes.old }
    ensures { LineCoded table_bytes rec.now codes.new (chosen_tokens h rec.now first instruction what) }
{
    start(codes);
    code_chosen(codes, tables, rec, h, first, instruction, what);
    put_end(codes)
}

// Writes it from the start of the lists on, if they have room; answers bytes * 2^32 + tokens, or 0.
fn write_piece(
    text: &mut [u8],
    ends: &mut [u32],
    kinds: &mut [u8],
    rec: &[u8],
    h: Header,
    first: u16,
    instruction: u16,
    what: u8,
) -> u64
    requires { Rising h rec.now }
    ensures { answer text.new ends.new kinds.new result
        ≡ pick (has_room (chosen_tokens h rec.now first instruction what) text.old ends.old kinds.old)
        (line_answer (chosen_tokens h rec.now first instruction what) text.old ends.old kinds.old)
        (answer text.old ends.old kinds.old 0) }
{
    let made = token_table();
    let table = Tables { bytes: &made };
    let mut codes = [0u64; 86];
    code_piece(&mut codes, table, rec, h, first, instruction, what);
    let bytes = codes[0] as usize;
    let tokens = codes[1] as usize;
    if (bytes <= text.len()) & (tokens <= ends.len()) & (tokens <= kinds.len()) {
        let mut lines = [0u32; 1];
        write_listing(
            text,
            ends,
            kinds,
            &mut lines,
            table.bytes,
            rec,
            codes_of(&codes),
        );
        return bytes as u64 * 4294967296 + tokens as u64;
    }
    0
}

fn is_listed(rec: &[u8], h: Header, instruction: u16) -> bool
    requires { h ≡ header_of rec.now }
    ensures { result ≡ is_listed rec.now instruction }
{
    (record_first_no(rec, 0, h.blocks as usize) == 0) & (instruction < h.instructions)
}

// Operand `what` (0 to 4) of an instruction, its memory operand read (5) or as an address (6 to 15), or condition `what` - 16 as
// it tests it in the block whose first instruction is `first`. Answers bytes * 2^32 + tokens, and 0 with the lists as they were
// where a question gets a no, there is no such instruction, or a list is too short.
#[unsafe(no_mangle)]
pub extern "C" fn piece_tokens(
    rec: &[u8],
    first: u16,
    instruction: u16,
    what: u8,
    text: &mut [u8],
    ends: &mut [u32],
    kinds: &mut [u8],
) -> u64
    ensures { answer text.new ends.new kinds.new result
        ≡ exported rec.now first instruction what text.old ends.old kinds.old }
{
    let h = read_header(rec);
    if is_listed(rec, h, instruction) {
        return write_piece(text, ends, kinds, rec, h, first, instruction, what);
    }
    0
}
