// Question 15: whether each block's True edges agree with its last instruction.
ghost use Rattle.std.specs.Prelude.{◌≡◌, ◌+◌, ◌-◌, ◌≤◌};
ghost use Rattle.lists.specs.Choice.{pick};
ghost use Rattle.record.specs.Body.{body_at};
ghost use Rattle.record.specs.Branches.{is_true, true_count, true_lead, branch_agrees, branches_ok};

use crate::blocks::{Place, edges_in, instructions_in};
use crate::body::{is_conditional_branch, op_number};
use lists::parts::from;
use lists::reads::{u8_at, u64_at};

// 1 for a True edge, 0 for another.
fn true_at(kinds: &[u8], e: usize) -> u16
    ensures { (result ≡ pick (is_true kinds.now e) 1 0) × (result ≤ 1) }
{
    u16::from(u8_at(kinds, e) == 1)
}

// Of n edges from e on: how many are True.
#[tactic(auto, unfolding(crate::specs::Branches::true_count))]
fn true_count(kinds: &[u8], e: u32, n: u8) -> u16
    ensures { result ≡ true_count kinds.now e n }
{
    let mut count: u16 = 0;
    for m in 0..n {
        count += true_at(kinds, e as usize + m as usize);
    }
    count
}

// Whether each of them leads to an address.
#[tactic(auto, unfolding(crate::specs::Branches::true_lead))]
fn true_lead(targets: &[u8], kinds: &[u8], va: u64, e: u32, n: u8) -> bool
    ensures { result ≡ true_lead targets.now kinds.now va e n }
{
    let mut ok = true;
    for m in 0..n {
        let at = e as usize + m as usize;
        ok = ok & ((u8_at(kinds, at) != 1) | (u64_at(targets, 8 * at) == va));
    }
    ok
}

// Of a block with c instructions, the last of which is given, and n edges from e on.
#[tactic(auto, unfolding(crate::specs::Branches::branch_agrees))]
fn branch_agrees(targets: &[u8], kinds: &[u8], last: &[u8], c: u16, e: u32, n: u8) -> bool
    ensures { result ≡ branch_agrees targets.now kinds.now last.now c e n }
{
    let count = true_count(kinds, e, n);
    if (c != 0) & is_conditional_branch(last) {
        return (count == 1) & true_lead(targets, kinds, op_number(last, 0), e, n);
    }
    count == 0
}

// The last of c instructions from i on.
fn last_of(bodies: &[u8], i: u32, c: u16) -> &[u8]
    ensures { result.now ≡ body_at bodies.now (i + c - 1) }
{
    let end = i as usize + c as usize;
    from(bodies, 92 * end.saturating_sub(1))
}

#[tactic(auto, unfolding(crate::specs::Branches::branch_ok, crate::specs::Blocks::first_edge, crate::specs::Blocks::first_instruction, crate::specs::Branches::branches_ok))]
pub fn branches_ok(targets: &[u8], kinds: &[u8], marks: &[u8], bodies: &[u8], blocks: u16) -> bool
    ensures { result ≡ branches_ok targets.now kinds.now marks.now bodies.now blocks }
{
    let mut ok = true;
    let mut e: u32 = 0;
    let mut i: u32 = 0;
    for k in 0..blocks {
        let c = instructions_in(marks, Place(k));
        let n = edges_in(marks, Place(k));
        let last = last_of(bodies, i, c);
        ok = ok & branch_agrees(targets, kinds, last, c, e, n);
        e += n as u32;
        i += c as u32;
    }
    ok
}
