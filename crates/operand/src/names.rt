// Names of addresses: the entry of the atlas, its token, and the spans.
ghost use Rattle.std.specs.Prelude.{◌&&◌, [], ◌∷◌, ◌≡◌, ◌≤◌, ◌<◌, ◌+◌, ◌*◌, List, ℕ, length, leb};
ghost use Rattle.operand.specs.Names.{entry_at, entry_token, name_or, in_span};
ghost use Rattle.operand.specs.Lent.{Rising};
ghost use Rattle.lists.specs.Choice.{any_below};
ghost use Rattle.record.specs.Layout.{texts_at, pairs_of};
ghost use Rattle.record.specs.Atlas.{text_start, span_first, span_last};
ghost use Rattle.tokens.specs.Words.{word_token};
ghost use Rattle.codes.specs.Coded.{Coded};
ghost use Rattle.operand.specs.Lent.{Lent};
ghost use Rattle.codes.specs.Tables.{table_bytes};

use codes::code::{code_literal, code_part, code_prefixed};
use codes::tables::Tables;
use lists::parts::from;
use lists::reads::plain_u64;
use record::atlas::{entry_kind, entry_length, span_first, span_last, text_start};
use record::header::Header;
use record::layout::{entries_at, pairs_at, spans_at, texts_at};
use record::search::search;

// The entry at an address.
#[tactic(auto, unfolding(crate::specs::Names::entry_at))]
pub fn entry_at(rec: &[u8], h: Header, va: u64) -> Option<u16>
    requires { Rising h rec.now }
    ensures { result ≡ entry_at h rec.now va }
{
    search(from(rec, entries_at(h)), h.atlas, va)
}

// Whether an address lies in one of n spans that are there: no test of the length stands between the reads.
fn plain_span(spans: &[u8], n: u16, va: u64) -> bool
    requires { 16 * n ≤ length spans.now }
    ensures { result ≡ any_below (λ k. leb (span_first spans.now k) va && leb va (span_last spans.now k)) n }
{
    let e = n as usize;
    for k in 0..e {
        if (plain_u64(spans, 16 * k) <= va) & (va <= plain_u64(spans, 16 * k + 8)) {
            return true;
        }
    }
    false
}

// Whether an address lies in a span.
#[tactic(auto, unfolding(crate::specs::Names::in_span))]
pub fn in_span(rec: &[u8], h: Header, va: u64) -> bool
    ensures { result ≡ in_span h rec.now va }
{
    let spans = from(rec, spans_at(h));
    let n = h.spans;
    if 16 * n as usize <= spans.len() {
        return plain_span(spans, n, va);
    }
    for k in 0..n {
        if (span_first(spans, k) <= va) & (va <= span_last(spans, k)) {
            return true;
        }
    }
    false
}

// Where the text of entry k begins in the record.
fn text_place(rec: &[u8], h: Header, k: u16) -> u32
    ensures { result ≡ texts_at h + text_start (pairs_of h rec.now) k }
{
    (texts_at(h) + text_start(from(rec, pairs_at(h)), k)) as u32
}

// The token of entry k.
#[tactic(auto, unfolding(crate::specs::Names::entry_token))]
pub fn code_entry(codes: &mut [u64], rec: &[u8], h: Header, k: u16)
    requires { 5 ≤ length codes.old }
    ensures { (t : List ℕ) → Coded t rec.now codes.old codes.new (entry_token h rec.now k ∷ []) }
{
    let pairs = from(rec, pairs_at(h));
    let kind = entry_kind(pairs, k);
    let n = entry_length(pairs, k);
    let at = text_place(rec, h, k);
    if kind == 3 {
        return code_part(codes, rec, 4, at, n as u16);
    }
    code_literal(codes, rec, kind == 2, at, n)
}

// The token for an address.
#[tactic(auto, unfolding(crate::specs::Names::name_or))]
pub fn name_or(codes: &mut [u64], tables: Tables<'_>, rec: &[u8], h: Header, va: u64, w: u8)
    requires lent { Lent codes.old h rec.now }
    requires w_bound { w < 102 }
    ensures { Coded table_bytes rec.now codes.old codes.new (name_or h rec.now va (word_token w) ∷ []) }
{
    match entry_at(rec, h, va) {
        Some(k) => code_entry(codes, rec, h, k),
        None => code_prefixed(codes, tables, w, va),
    }
}
