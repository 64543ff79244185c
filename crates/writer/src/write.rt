// The writer: each token's bytes are stored once, in the rest of the lent text, and its end and kind beside them.
ghost use Rattle.std.specs.Prelude.{◌≡◌, true, List, [], ℕ, ◌+◌, ◌≤◌, ◌<◌, length, set};
ghost use Rattle.lists.specs.Choice.{pick};
ghost use Rattle.lists.specs.Put.{put};
ghost use Rattle.tokens.specs.Token.{Token};
ghost use Rattle.codes.specs.Code.{kind_in, joins_in, what_in, size_in, place_in, of_table, all_in_table, text_in, event, decode};
ghost use Rattle.codes.specs.Code.Event.{end};
ghost use Rattle.codes.specs.Lines.{of_lines};
ghost use Rattle.writer.specs.Written.{page, place_for, written, on_page, Fits, Room, start, Listed, Ready};

use crate::copy::copy_bytes;
use codes::read::width;
use lists::parts::part;
use lists::reads::{element_or, u8_at};
use lists::stores::put_slice;
use text::digits::{write_num, write_prefixed};
use text::literal::put_literal;

// Bytes, tokens and lines written.
#[derive(Clone, Copy)]
pub struct Cursor {
    pub text: usize,
    pub tokens: usize,
    pub lines: usize,
}

// The text of a code, in the rest of the lent text; answers the bytes it added.
#[tactic(auto, unfolding(codes::specs::Code::text_in))]
fn write_text(out: &mut [u8], tables: &[u8], rec: &[u8], c: u64, v: u64) -> usize
    requires { length (text_in tables.now rec.now c v) ≤ length out.old }
    ensures count { result ≡ length (text_in tables.now rec.now c v) }
    ensures text { out.new ≡ put 0 (text_in tables.now rec.now c v) out.old }
{
    let what = c / 16 % 16;
    let at = (c / 16777216) as usize;
    let n = (c / 256 % 65536) as usize;
    match what {
        0 => put_slice(out, part(tables, at, n)),
        1 => put_slice(out, part(rec, at, n)),
        2 => write_num(out, false, v),
        3 => write_num(out, true, v),
        4 => write_prefixed(out, part(tables, at + 2, u8_at(tables, at + 1) as usize), v),
        _ => put_literal(out, what == 6, part(rec, at, n)),
    }
}

// The end and the kind of a token with n bytes: where it goes on with the one before they take that one's place.
fn end_token(ends: &mut [u32], kinds: &mut [u8], p: Cursor, c: u64, n: usize) -> Cursor
    requires n_bound { p.text + n < 4294967296 }
    requires tokens_in_bounds { (place_for (joins_in c) p.tokens < length ends.old) × (place_for (joins_in c) p.tokens < length kinds.old) }
    requires c_bound { pick (joins_in c) 1 0 ≤ p.tokens }
    ensures lists { (ends.new ≡ set ends.old (place_for (joins_in c) p.tokens) (p.text + n))
        × (kinds.new ≡ set kinds.old (place_for (joins_in c) p.tokens) (kind_in c)) }
    ensures cursor { result ≡ record { text = p.text + n; tokens = place_for (joins_in c) p.tokens + 1; lines = p.lines } }
{
    let k = p.tokens + (c / 8 % 2) as usize - 1;
    let end = p.text + n;
    ends[k] = end as u32;
    kinds[k] = (c % 8) as u8;
    Cursor {
        text: end,
        tokens: k + 1,
        lines: p.lines,
    }
}

// A token.
fn write_token(
    text: &mut [u8],
    ends: &mut [u32],
    kinds: &mut [u8],
    p: Cursor,
    tables: &[u8],
    rec: &[u8],
    c: u64,
    v: u64,
) -> Cursor
    requires c_bound { what_in c < 7 }
    requires fits { Fits (length text.old) (length ends.old) (length kinds.old) 0 p (event tables.now rec.now c v) }
    ensures { (l : List ℕ) → page text.new ends.new kinds.new l result
        ≡ written (page text.old ends.old kinds.old l p) (event tables.now rec.now c v) }
{
    let at = p.text;
    let n = write_text(&mut text[at..], tables, rec, c, v);
    end_token(ends, kinds, p, c, n)
}

// A token whose text is of the table and lies within it, as that of nearly all does.
fn write_word(
    text: &mut [u8],
    ends: &mut [u32],
    kinds: &mut [u8],
    p: Cursor,
    tables: &[u8],
    c: u64,
) -> Cursor
    requires c_value { what_in c ≡ of_table }
    requires c_in_bounds { place_in c + size_in c ≤ length tables.now }
    requires fits { Fits (length text.old) (length ends.old) (length kinds.old) 0 p (event tables.now [] c 0) }
    ensures { (l : List ℕ) → page text.new ends.new kinds.new l result
        ≡ written (page text.old ends.old kinds.old l p) (event tables.now [] c 0) }
{
    let at = p.text;
    let n = copy_bytes(
        &mut text[at..],
        tables,
        (c / 16777216) as usize,
        (c / 256 % 65536) as usize,
    );
    end_token(ends, kinds, p, c, n)
}

// The end of a line.
fn end_line(lines: &mut [u32], p: Cursor) -> Cursor
    requires { (p.lines < length lines.old) × (p.tokens < 4294967296) }
    ensures { (x e k : List ℕ) → page x e k lines.new result ≡ written (page x e k lines.old p) end }
{
    let i = p.lines;
    lines[i] = p.tokens as u32;
    Cursor {
        text: p.text,
        tokens: p.tokens,
        lines: i + 1,
    }
}

// All codes of a list, which lie within the table and for which there is room. No `for`: a code takes one number or two.
// Four lists lent to be filled stay parameters: the proof of a struct of them does not close.
pub fn write_codes(
    text: &mut [u8],
    ends: &mut [u32],
    kinds: &mut [u8],
    lines: &mut [u32],
    p: Cursor,
    tables: &[u8],
    rec: &[u8],
    codes: &[u64],
) -> Cursor
    requires room { Room (length text.old) (length ends.old) (length kinds.old) (length lines.old) p (decode tables.now rec.now codes.now) }
    requires codes_value { all_in_table (length tables.now) codes.now ≡ true }
    ensures { page text.new ends.new kinds.new lines.new result
        ≡ on_page (page text.old ends.old kinds.old lines.old p) (decode tables.now rec.now codes.now) }
{
    let mut r = p;
    let mut i = 0;
    while i < codes.len() {
        let c = codes[i];
        let what = c / 16 % 16;
        if what == 0 {
            r = write_word(text, ends, kinds, r, tables, c);
            i += 1;
        } else if 7 <= what {
            r = end_line(lines, r);
            i += 1;
        } else {
            r = write_token(
                text,
                ends,
                kinds,
                r,
                tables,
                rec,
                c,
                element_or(codes, i + 1, 0),
            );
            i += width(c);
        }
    }
    r
}

// The lines of a listing from their codes, from the start of the lists on.
pub fn write_listing(
    text: &mut [u8],
    ends: &mut [u32],
    kinds: &mut [u8],
    lines: &mut [u32],
    tables: &[u8],
    rec: &[u8],
    codes: &[u64],
) -> Cursor
    requires { Ready tables.now rec.now codes.now (length text.old) (length ends.old) (length kinds.old) (length lines.old) }
    ensures { (ls : List (List Token)) → decode tables.now rec.now codes.now ≡ of_lines ls
        → Listed ls (page text.old ends.old kinds.old lines.old start) (page text.new ends.new kinds.new lines.new result) }
{
    let p = Cursor {
        text: 0,
        tokens: 0,
        lines: 0,
    };
    write_codes(text, ends, kinds, lines, p, tables, rec, codes)
}
