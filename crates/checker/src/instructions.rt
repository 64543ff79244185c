// What an instruction alone tells: whether it turns away from the next one, whether it sets by a condition and names a near branch.
ghost use Rattle.std.specs.Prelude.{not, ◌&&◌, ◌||◌, ◌≡◌, ◌+◌, eqb};
ghost use Rattle.lists.specs.Choice.{all_below};
ghost use Rattle.record.specs.Body.{body_at, mnemonic_of, sets_by_condition, operand_kind};
ghost use Rattle.route.specs.Processor.{is_return, is_jump};
ghost use Rattle.route.specs.Assumed.{turns};

use lists::parts::from;
use record::body::{is_conditional_branch, mnemonic, op_kind};

// A ret or a jmp.
pub fn ends_route(body: &[u8]) -> bool
    ensures { result ≡ (is_jump body.now || is_return body.now) }
{
    let m = mnemonic(body);
    (m == 25) | (m == 24)
}

fn turns_away(body: &[u8]) -> bool
    ensures { result ≡ turns body.now }
{
    let m = mnemonic(body);
    (m == 24) | (m == 25) | is_conditional_branch(body)
}

// Whether none of n instructions from i on turns away.
pub fn none_turns(bodies: &[u8], i: u32, n: u16) -> bool
    ensures { result ≡ all_below (λ m. not (turns (body_at bodies.now (i + m)))) n }
{
    let mut ok = true;
    for m in 0..n {
        ok = ok & !turns_away(from(bodies, 92 * (i as usize + m as usize)));
    }
    ok
}

fn sets_to_branch(body: &[u8]) -> bool
    ensures { result ≡ (sets_by_condition (mnemonic_of body.now) && eqb (operand_kind body.now 0) 2) }
{
    let m = mnemonic(body);
    ((m == 26) | (m == 27)) & (op_kind(body, 0) == 2)
}

// Whether no setcc or cmovcc among n instructions has a near branch.
pub fn sets_no_branch(bodies: &[u8], n: u16) -> bool
    ensures { result ≡ all_below (λ i. not (sets_by_condition (mnemonic_of (body_at bodies.now i)) && eqb (operand_kind (body_at bodies.now i) 0) 2)) n }
{
    let mut ok = true;
    for i in 0..n {
        ok = ok & !sets_to_branch(from(bodies, 92 * i as usize));
    }
    ok
}
