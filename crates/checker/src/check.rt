// The call that checks a record.
ghost use Rattle.std.specs.Prelude.{◌≡◌};
ghost use Rattle.flow.specs.Rows.{block_rows};
ghost use Rattle.route.specs.Assumed.{gotos_labelled};
ghost use Rattle.checker.specs.Broken.{broken_inside, broken_names, broken_leads, first_broken};
ghost use Rattle.checker.specs.Called.{Accepted, Checks};
ghost use Rattle.checker.specs.Number.{Met};

use crate::assumption::{Assumption, Unfollowed};
use crate::blocks::{
    branches_inside, jumps_led, lasts_unmarked, others_led, starts_unnamed, turns_last,
};
use crate::edges::no_case;
use crate::instructions::sets_no_branch;
use crate::labels::all_labelled;
use crate::names::{entries_plain, mnemonics_plain, no_flow_words};
use codes::tables::{Tables, token_table};
use flow::planned::plan_record;
use flow::rows::block_rows;
use lists::parts::{from, part};
use record::asked::record;
use record::header::{Header, read_header};
use record::layout::{bodies_at, edge_kinds_at, pairs_at, size, targets_at, texts_at};

// Whether every goto of the whole record's listing has its label.
fn gotos_labelled(rec: &[u8], h: Header, blocks: &[u16]) -> bool
    requires accepted { Accepted h rec.now }
    requires blocks_value { blocks.now ≡ block_rows h rec.now }
    ensures { result ≡ gotos_labelled h rec.now }
{
    let made = token_table();
    let tables = Tables { bytes: &made };
    let mut plan = [0u64; 900];
    let planned = plan_record(tables.isa(), rec, h, blocks, 0, h.blocks, &mut plan);
    all_labelled(blocks, part(&plan, 0, planned.next))
}

// Assumptions 2 to 5: what instructions and edges tell.
fn check_inside(rec: &[u8], h: Header, blocks: &[u16]) -> Result<(), Assumption>
    requires accepted { Accepted h rec.now }
    requires blocks_value { blocks.now ≡ block_rows h rec.now }
    ensures { Met (broken_inside h rec.now) result }
{
    let bodies = from(rec, bodies_at(h));
    if !turns_last(bodies, blocks, h.blocks) {
        return Err(Assumption::TurnsLast);
    }
    if !lasts_unmarked(bodies, blocks, h.blocks) {
        return Err(Assumption::LastsUnmarked);
    }
    if !sets_no_branch(bodies, h.instructions) {
        return Err(Assumption::SetsNoBranch);
    }
    if !no_case(from(rec, edge_kinds_at(h)), h.edges) {
        return Err(Assumption::NoCase);
    }
    Ok(())
}

// Assumptions 6 to 8: names.
fn check_names(rec: &[u8], h: Header) -> Result<(), Assumption>
    requires { Accepted h rec.now }
    ensures { Met (broken_names h rec.now) result }
{
    let bodies = from(rec, bodies_at(h));
    if !starts_unnamed(rec, h) {
        return Err(Assumption::StartsUnnamed);
    }
    if !(entries_plain(from(rec, pairs_at(h)), from(rec, texts_at(h)), h.atlas)
        & mnemonics_plain(bodies, h.instructions))
    {
        return Err(Assumption::NamesPlain);
    }
    if !no_flow_words(bodies, h.instructions) {
        return Err(Assumption::NoFlowWords);
    }
    Ok(())
}

// Assumptions 9 to 12: where blocks lead, and labels.
fn check_leads(rec: &[u8], h: Header, blocks: &[u16]) -> Result<(), Assumption>
    requires accepted { Accepted h rec.now }
    requires blocks_value { blocks.now ≡ block_rows h rec.now }
    ensures { Met (broken_leads h rec.now) result }
{
    let targets = from(rec, targets_at(h));
    let kinds = from(rec, edge_kinds_at(h));
    let bodies = from(rec, bodies_at(h));
    if !jumps_led(targets, kinds, bodies, blocks, h.blocks) {
        return Err(Assumption::JumpsLed);
    }
    if !others_led(from(rec, 24), targets, kinds, bodies, blocks, h.blocks) {
        return Err(Assumption::OthersLed);
    }
    if !branches_inside(blocks, h.blocks) {
        return Err(Assumption::BranchesInside);
    }
    if !gotos_labelled(rec, h, blocks) {
        return Err(Assumption::GotosLabelled);
    }
    Ok(())
}

// The assumptions in their order, of an accepted record.
#[tactic(auto, unfolding(crate::specs::Broken::first_broken))]
fn check_assumptions(rec: &[u8], h: Header, blocks: &[u16]) -> Result<(), Assumption>
    requires accepted { Accepted h rec.now }
    requires blocks_value { blocks.now ≡ block_rows h rec.now }
    ensures { Met (first_broken h rec.now) result }
{
    if h.blocks == 0 {
        return Err(Assumption::HasBlocks);
    }
    check_inside(rec, h, blocks)?;
    check_names(rec, h)?;
    check_leads(rec, h, blocks)
}

fn check_accepted(rec: &[u8], h: Header) -> Result<(), Unfollowed>
    requires { Accepted h rec.now }
    ensures { Checks rec.now result }
{
    let mut block = [0u16; 1600];
    block_rows(rec, h, &mut block);
    check_assumptions(rec, h, part(&block, 0, 8 * size(h.blocks)))?;
    Ok(())
}

// Whether the listing of a whole record may be followed. Nothing is demanded of the caller.
pub fn check_record(rec: &[u8]) -> Result<(), Unfollowed>
    ensures { Checks rec.now result }
{
    let to = size(read_header(rec).blocks);
    let h = record(rec, 0, to)?;
    check_accepted(rec, h)
}
