// One token each: its code, its length counted, and no character stored.
ghost use Rattle.std.specs.Prelude.{◌≡◌, ℕ, ◌<◌, ◌≤◌, List, [], ◌∷◌, length, take, drop};
ghost use Rattle.lists.specs.Bytes.{u8_at};
ghost use Rattle.lists.specs.Choice.{pick};
ghost use Rattle.text.specs.Number.{num_text};
ghost use Rattle.text.specs.Literal.{literal_text};
ghost use Rattle.tokens.specs.Token.{token};
ghost use Rattle.tokens.specs.Words.{word_token, prefixed};
ghost use Rattle.x86.specs.Registers.{register_name};
ghost use Rattle.x86.specs.Mnemonics.{mnemonic_name};
ghost use Rattle.x86.specs.Table.{text_at};
ghost use Rattle.codes.specs.Coded.{Coded};
ghost use Rattle.codes.specs.Tables.{table_bytes};

use crate::state::{put_code, put_valued};
use crate::tables::Tables;
use lists::parts::part;
use text::lengths::{literal_length, num_length};
use text::number::hex_count;

// A text of the table as a token of kind k: its length stands before it.
fn code_text(codes: &mut [u64], tables: Tables<'_>, k: u8, at: u16)
    requires in_bounds { 5 ≤ length codes.old }
    requires k_bound { k < 8 }
    requires at_in_bounds { at < length table_bytes }
    requires at_value { u8_at table_bytes at ≡ length (text_at table_bytes at) }
    ensures { (s : List ℕ) → Coded table_bytes s codes.old codes.new (token k (text_at table_bytes at) ∷ []) }
{
    let n = tables.bytes[at as usize];
    put_code(codes, k, 0, n as u16, at as u32 + 1, n as usize)
}

// Word w of the table; past the last word an empty text.
pub fn code_word(codes: &mut [u64], tables: Tables<'_>, w: u8)
    requires in_bounds { 5 ≤ length codes.old }
    ensures { (s : List ℕ) → Coded table_bytes s codes.old codes.new (word_token w ∷ []) }
{
    if w < 102 {
        let at = 32 * w as u16;
        return code_text(codes, tables, tables.bytes[at as usize], at + 1);
    }
    put_code(codes, 0, 0, 0, 0, 0)
}

// A register, by the table; one that does not exist has no text.
pub fn code_register(codes: &mut [u64], tables: Tables<'_>, r: u8)
    requires in_bounds { 5 ≤ length codes.old }
    ensures { (s : List ℕ) → Coded table_bytes s codes.old codes.new (token 1 (register_name r) ∷ []) }
{
    if r < 160 {
        return code_text(codes, tables, 1, 3264 + 8 * r as u16);
    }
    put_code(codes, 1, 0, 0, 0, 0)
}

// An instruction's own name by its mnemonic, as Text.
pub fn code_mnemonic(codes: &mut [u64], tables: Tables<'_>, m: u8)
    requires in_bounds { 5 ≤ length codes.old }
    ensures { (s : List ℕ) → Coded table_bytes s codes.old codes.new (token 0 (mnemonic_name m) ∷ []) }
{
    if m < 46 {
        return code_text(codes, tables, 0, 4544 + 16 * m as u16);
    }
    put_code(codes, 0, 0, 0, 0, 0)
}

// n bytes of the record, as a token of kind k.
pub fn code_part(codes: &mut [u64], rec: &[u8], k: u8, at: u32, n: u16)
    requires in_bounds { 5 ≤ length codes.old }
    requires k_bound { k < 8 }
    ensures { (t : List ℕ) → Coded t rec.now codes.old codes.new (token k (take n (drop at rec.now)) ∷ []) }
{
    put_code(codes, k, 1, n, at, part(rec, at as usize, n as usize).len())
}

// What a number's text is made of, with a minus or without: by the number that stands in a code.
fn number_of(negative: bool) -> u8
    ensures { (result ≡ pick negative 3 2) × (result < 7) }
{
    if negative { 3 } else { 2 }
}

// A Number token, by its sign and size.
pub fn code_num(codes: &mut [u64], negative: bool, size: u64)
    requires { 5 ≤ length codes.old }
    ensures { (t s : List ℕ) → Coded t s codes.old codes.new (token 2 (num_text negative size) ∷ []) }
{
    put_valued(
        codes,
        2,
        number_of(negative),
        0,
        num_length(negative, size),
        size,
    )
}

// Word w and upper-case hex, as one token of the kind of the word.
pub fn code_prefixed(codes: &mut [u64], tables: Tables<'_>, w: u8, v: u64)
    requires in_bounds { 5 ≤ length codes.old }
    requires w_bound { w < 102 }
    ensures { (s : List ℕ) → Coded table_bytes s codes.old codes.new (prefixed (word_token w) v ∷ []) }
{
    let at = 32 * w as u32;
    let kind = tables.bytes[at as usize];
    let n = tables.bytes[at as usize + 1];
    put_valued(codes, kind, 4, at, n as usize + hex_count(v), v)
}

// The same of a literal, of wide characters or not.
fn string_of(wide: bool) -> u8
    ensures { (result ≡ pick wide 6 5) × (result < 7) }
{
    if wide { 6 } else { 5 }
}

// An Address token: the literal of a string of n bytes of the record.
pub fn code_literal(codes: &mut [u64], rec: &[u8], wide: bool, at: u32, n: u8)
    requires { 5 ≤ length codes.old }
    ensures { (t : List ℕ) → Coded t rec.now codes.old codes.new (token 5 (literal_text wide (take n (drop at rec.now))) ∷ []) }
{
    let bytes = literal_length(wide, part(rec, at as usize, n as usize));
    put_code(codes, 5, string_of(wide), n as u16, at, bytes)
}
