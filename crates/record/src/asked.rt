// The questions 1 to 11 and 15, by stages: each stage answers the first of its questions that gets a no.
ghost use Rattle.std.specs.Prelude.{◌≡◌};
ghost use Rattle.lists.specs.Question.{Answers};
ghost use Rattle.record.specs.Header.{header_of};
ghost use Rattle.record.specs.Asked.{sizes_no, marks_asked, starts_asked, edge_kinds_asked, bodies_asked, branches_asked, atlas_asked, spans_asked, blocks_no, contents_no, range_no, Answered};

use crate::atlas::{atlas_ok, spans_ok};
use crate::blocks::{edge_kinds_ok, marks_ok, starts_differ};
use crate::body::bodies_ok;
use crate::branches::branches_ok;
use crate::header::{Header, fields_ok, limits_ok, read_header};
use crate::layout::{
    bodies_at, edge_kinds_at, entries_at, marks_at, pairs_at, size_of, spans_at, targets_at,
    texts_at,
};
use lists::parts::from;
use lists::question::Question;
use x86::registers::register_exists;

// Questions 1 to 4: the header of a record that has the length it asks for.
#[tactic(auto, unfolding(crate::specs::Asked::sizes_no))]
pub fn sized_header(bytes: &[u8]) -> Result<Header, Question>
    ensures { Answers (sizes_no bytes.now) (header_of bytes.now) result }
{
    if bytes.len() < 24 {
        return Err(Question::Header);
    }
    let h = read_header(bytes);
    if !fields_ok(h) {
        return Err(Question::Fields);
    }
    if !limits_ok(h) {
        return Err(Question::Limits);
    }
    if bytes.len() != size_of(h) {
        return Err(Question::Length);
    }
    Ok(h)
}

// Question 5.
#[tactic(auto, unfolding(crate::specs::Asked::marks_asked))]
fn marks_asked(bytes: &[u8], h: Header) -> bool
    ensures { result ≡ marks_asked h bytes.now }
{
    marks_ok(from(bytes, marks_at(h)), h.blocks, h.instructions, h.edges)
}

// Question 6.
#[tactic(auto, unfolding(crate::specs::Asked::starts_asked))]
fn starts_asked(bytes: &[u8], h: Header) -> bool
    ensures { result ≡ starts_asked h bytes.now }
{
    starts_differ(from(bytes, 24), h.blocks)
}

// Question 7.
#[tactic(auto, unfolding(crate::specs::Asked::edge_kinds_asked))]
fn edge_kinds_asked(bytes: &[u8], h: Header) -> bool
    ensures { result ≡ edge_kinds_asked h bytes.now }
{
    edge_kinds_ok(from(bytes, edge_kinds_at(h)), h.edges)
}

// Question 8.
#[tactic(auto, unfolding(crate::specs::Asked::bodies_asked))]
fn bodies_asked(bytes: &[u8], h: Header) -> bool
    ensures { result ≡ bodies_asked h bytes.now }
{
    register_exists(h.frame) & bodies_ok(from(bytes, bodies_at(h)), h.instructions)
}

// Question 15.
#[tactic(auto, unfolding(crate::specs::Asked::branches_asked))]
fn branches_asked(bytes: &[u8], h: Header) -> bool
    ensures { result ≡ branches_asked h bytes.now }
{
    let targets = from(bytes, targets_at(h));
    let kinds = from(bytes, edge_kinds_at(h));
    let marks = from(bytes, marks_at(h));
    branches_ok(targets, kinds, marks, from(bytes, bodies_at(h)), h.blocks)
}

// Question 9.
#[tactic(auto, unfolding(crate::specs::Asked::atlas_asked))]
fn atlas_asked(bytes: &[u8], h: Header) -> bool
    ensures { result ≡ atlas_asked h bytes.now }
{
    let entries = from(bytes, entries_at(h));
    let pairs = from(bytes, pairs_at(h));
    atlas_ok(entries, pairs, from(bytes, texts_at(h)), h.atlas, h.text)
}

// Question 10.
#[tactic(auto, unfolding(crate::specs::Asked::spans_asked))]
fn spans_asked(bytes: &[u8], h: Header) -> bool
    ensures { result ≡ spans_asked h bytes.now }
{
    spans_ok(from(bytes, spans_at(h)), h.spans)
}

// Questions 5 to 7.
#[tactic(auto, unfolding(crate::specs::Asked::blocks_no))]
pub fn ask_blocks(bytes: &[u8], h: Header) -> Result<(), Question>
    ensures { Answers (blocks_no h bytes.now) tt result }
{
    if !marks_asked(bytes, h) {
        return Err(Question::Marks);
    }
    if !starts_asked(bytes, h) {
        return Err(Question::Starts);
    }
    if !edge_kinds_asked(bytes, h) {
        return Err(Question::EdgeKinds);
    }
    Ok(())
}

// Questions 8, 15, 9 and 10.
#[tactic(auto, unfolding(crate::specs::Asked::contents_no))]
pub fn ask_contents(bytes: &[u8], h: Header) -> Result<(), Question>
    ensures { Answers (contents_no h bytes.now) tt result }
{
    let bodies = bodies_asked(bytes, h);
    let branches = branches_asked(bytes, h);
    let atlas = atlas_asked(bytes, h);
    let spans = spans_asked(bytes, h);
    match (bodies, branches, atlas, spans) {
        (false, _, _, _) => Err(Question::Bodies),
        (_, false, _, _) => Err(Question::Branches),
        (_, _, false, _) => Err(Question::Atlas),
        (_, _, _, false) => Err(Question::Spans),
        _ => Ok(()),
    }
}

// Question 11.
#[tactic(auto, unfolding(crate::specs::Asked::range_no))]
pub fn ask_range(h: Header, from: usize, to: usize) -> Result<(), Question>
    ensures { Answers (range_no h from to) tt result }
{
    if (from <= to) & (to <= h.blocks as usize) {
        return Ok(());
    }
    Err(Question::Range)
}

// The questions 1 to 11 and 15 of a record and a range of its blocks: its header, where none gets a no. Nothing is demanded of the caller.
#[tactic(auto, unfolding(crate::specs::Asked::first_no))]
pub fn record(bytes: &[u8], from: usize, to: usize) -> Result<Header, Question>
    ensures { Answered bytes.now from to result }
{
    let h = sized_header(bytes)?;
    ask_blocks(bytes, h)?;
    ask_contents(bytes, h)?;
    ask_range(h, from, to)?;
    Ok(h)
}
