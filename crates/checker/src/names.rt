// Names that a reader of the text alone could take for labels or for words of the flow.
ghost use Rattle.std.specs.Prelude.{not, ◌&&◌, ◌≡◌, eqb};
ghost use Rattle.lists.specs.Choice.{all_below};
ghost use Rattle.record.specs.Atlas.{entry_kind, entry_text};
ghost use Rattle.record.specs.Body.{body_at, mnemonic_of, name_of};
ghost use Rattle.checker.specs.Broken.{begins, begins_loc, is_flow_word};

use lists::parts::{from, part};
use record::atlas::{entry_kind, entry_length, text_start};
use record::body::mnemonic;

// Whether a text begins with another.
pub fn begins_with(t: &[u8], w: &[u8]) -> bool
    ensures { result ≡ begins t.now w.now }
{
    if t.len() < w.len() {
        return false;
    }
    for i in 0..w.len() {
        if t[i] != w[i] {
            return false;
        }
    }
    true
}

pub fn begins_loc(t: &[u8]) -> bool
    ensures { result ≡ begins_loc t.now }
{
    begins_with(t, b"loc_")
}

// The words with a zero behind them.
pub fn is_flow_word(name: &[u8]) -> bool
    ensures { result ≡ is_flow_word name.now }
{
    begins_with(name, b"do\0")
        | begins_with(name, b"if\0")
        | begins_with(name, b"goto\0")
        | begins_with(name, b"return\0")
}

// Whether no name of the atlas begins with `loc_`.
pub fn entries_plain(pairs: &[u8], texts: &[u8], atlas: u16) -> bool
    ensures { result ≡ all_below (λ k. not (eqb (entry_kind pairs.now k) 3 && begins_loc (entry_text pairs.now texts.now k))) atlas }
{
    let mut ok = true;
    for k in 0..atlas {
        let t = part(texts, text_start(pairs, k), entry_length(pairs, k) as usize);
        ok = ok & !((entry_kind(pairs, k) == 3) & begins_loc(t));
    }
    ok
}

// Whether no mnemonic 0 name of n instructions begins with `loc_`.
pub fn mnemonics_plain(bodies: &[u8], n: u16) -> bool
    ensures { result ≡ all_below (λ i. not (eqb (mnemonic_of (body_at bodies.now i)) 0 && begins_loc (name_of (body_at bodies.now i)))) n }
{
    let mut ok = true;
    for i in 0..n {
        let body = from(bodies, 92 * i as usize);
        ok = ok & !((mnemonic(body) == 0) & begins_loc(from(body, 68)));
    }
    ok
}

// Whether none is a word of the flow.
pub fn no_flow_words(bodies: &[u8], n: u16) -> bool
    ensures { result ≡ all_below (λ i. not (eqb (mnemonic_of (body_at bodies.now i)) 0 && is_flow_word (name_of (body_at bodies.now i)))) n }
{
    let mut ok = true;
    for i in 0..n {
        let body = from(bodies, 92 * i as usize);
        ok = ok & !((mnemonic(body) == 0) & is_flow_word(from(body, 68)));
    }
    ok
}
