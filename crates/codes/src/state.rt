// The five numbers before the codes, and one code more. No character is stored.
ghost use Rattle.std.specs.Prelude.{◌≡◌, ◌+◌, ◌<◌, ◌≤◌, [], ◌∷◌, length, ◌==◌, slice_set};
ghost use Rattle.lists.specs.Choice.{pick};
ghost use Rattle.codes.specs.Code.{code_of};
ghost use Rattle.codes.specs.Coded.{joins_last, Started, Plain, Added, Ended};
ghost use Rattle.codes.specs.State.{with_token};

use std::num::wrapping_add_u64;

// Nothing is coded.
pub fn start(codes: &mut [u64])
    requires { 5 ≤ length codes.old }
    ensures { Started codes.new }
{
    codes[0] = 0;
    codes[1] = 0;
    codes[2] = 0;
    codes[3] = 255;
    codes[4] = 0;
}

// All from here on counts as Text, or no more.
pub fn set_plain(codes: &mut [u64], plain: bool)
    requires { 5 ≤ length codes.old }
    ensures { Plain codes.old codes.new plain }
{
    codes[4] = u64::from(plain);
}

// The kind that a token of kind k counts as.
fn kind_on(plain: u64, k: u8) -> u64
    requires { k < 8 }
    ensures { (result ≡ pick (plain == 1) 0 k) × (result < 8) }
{
    if plain == 1 {
        return 0;
    }
    k as u64
}

// Whether a token of kind k goes on with one of kind `last`. Text and Punct join, 0 and 6: the bits of `joining`.
fn joins_last(last: u64, k: u64) -> bool
    requires { k < 8 }
    ensures { result ≡ joins_last last k }
{
    let joining: u64 = 65;
    (k == last) & ((joining >> k) % 2 == 1)
}

fn code_of(kind: u64, joins: bool, what: u8, size: u16, place: u32) -> u64
    requires { (kind < 8) × (what < 16) }
    ensures { result ≡ code_of kind joins what size place }
{
    kind + 8 * u64::from(!joins) + 16 * what as u64 + 256 * size as u64 + 16777216 * place as u64
}

// A token of so many bytes is counted, in n codes.
fn count_token(codes: &mut [u64], kind: u64, joins: bool, bytes: usize, n: u64)
    requires { 5 ≤ length codes.old }
    ensures { codes.new ≡ with_token codes.old kind joins bytes n }
{
    let text = wrapping_add_u64(codes[0], bytes as u64);
    let tokens = wrapping_add_u64(codes[1], u64::from(!joins));
    let count = wrapping_add_u64(codes[2], n);
    codes[0] = text;
    codes[1] = tokens;
    codes[2] = count;
    codes[3] = kind;
}

// Code number i, and nothing where the list ends before it.
fn store_code(codes: &mut [u64], i: u64, x: u64)
    requires { 5 ≤ length codes.old }
    ensures { codes.new ≡ slice_set codes.old (5 + i) x }
{
    if (i as usize) < codes.len() - 5 {
        let at = 5 + i as usize;
        codes[at] = x;
    }
}

// A code and the value behind it.
fn store_valued(codes: &mut [u64], i: u64, x: u64, v: u64)
    requires { 5 ≤ length codes.old }
    ensures { codes.new ≡ slice_set (slice_set codes.old (5 + i) x) (6 + i) v }
{
    if (i as usize) < codes.len() - 5 {
        let at = 5 + i as usize;
        codes[at] = x;
        store_code(codes, i + 1, v);
    }
}

// The code of a token of kind k, whose text has so many bytes.
pub fn put_code(codes: &mut [u64], k: u8, what: u8, size: u16, place: u32, bytes: usize)
    requires in_bounds { 5 ≤ length codes.old }
    requires k_bound { (k < 8) × (what < 16) }
    ensures { Added codes.old codes.new k what size place bytes [] }
{
    let kind = kind_on(codes[4], k);
    let joins = joins_last(codes[3], kind);
    let i = codes[2];
    count_token(codes, kind, joins, bytes, 1);
    store_code(codes, i, code_of(kind, joins, what, size, place));
}

// The same, with a value behind it.
pub fn put_valued(codes: &mut [u64], k: u8, what: u8, place: u32, bytes: usize, v: u64)
    requires in_bounds { 5 ≤ length codes.old }
    requires k_bound { (k < 8) × (what < 16) }
    ensures { Added codes.old codes.new k what 0 place bytes (v ∷ []) }
{
    let kind = kind_on(codes[4], k);
    let joins = joins_last(codes[3], kind);
    let i = codes[2];
    count_token(codes, kind, joins, bytes, 2);
    store_valued(codes, i, code_of(kind, joins, what, 0, place), v);
}

// The end of a line.
pub fn put_end(codes: &mut [u64])
    requires { 5 ≤ length codes.old }
    ensures { Ended codes.old codes.new }
{
    let i = codes[2];
    codes[2] = wrapping_add_u64(i, 1);
    codes[3] = 255;
    store_code(codes, i, 120);
}
