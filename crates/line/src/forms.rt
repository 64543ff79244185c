// Which form a line has.
ghost use Rattle.std.specs.Prelude.{true, false, ◌≡◌, ◌≤◌};
ghost use Rattle.record.specs.Body.{mnemonic_of};
ghost use Rattle.line.specs.Codes.{form_number, by_operands};
ghost use Rattle.line.specs.Forms.{cast_form, is_xor_self, is_and_zero, is_or_ones, imul_form, call_form, xchg_form, logic_form, return_form, jump_form, insn_form, leaves_value, value_before, returns_value};

use record::body::{
    body_at, memory_base, memory_size, mnemonic, op_count, op_kind, op_number, op_register,
};
use x86::registers::{full_register, register_size};
use x86::table::Isa;

#[tactic(auto, unfolding(crate::specs::Forms::cast_form, crate::specs::Codes::form_number))]
fn cast_form(isa: Isa<'_>, m: u8, body: &[u8]) -> u8
    ensures { result ≡ form_number (cast_form m body.now) }
{
    let narrow = register_size(isa, op_register(body, 0)) == 4;
    if m == 2 {
        if narrow { 1 } else { 2 }
    } else {
        if narrow { 3 } else { 4 }
    }
}

fn is_xor_self(body: &[u8]) -> bool
    ensures { result ≡ is_xor_self body.now }
{
    (op_count(body) == 2)
        & (op_kind(body, 0) == 0)
        & (op_kind(body, 1) == 0)
        & (op_register(body, 0) == op_register(body, 1))
}

fn is_and_zero(body: &[u8]) -> bool
    ensures { result ≡ is_and_zero body.now }
{
    ((op_count(body) == 2) & (2 <= op_kind(body, 1))) & (op_number(body, 1) == 0)
}

fn is_or_ones(body: &[u8]) -> bool
    ensures { result ≡ is_or_ones body.now }
{
    let v = op_number(body, 1);
    ((op_count(body) == 2) & (2 <= op_kind(body, 1)))
        & ((v == 0xffff_ffff_ffff_ffff)
            | ((v % 0x1_0000_0000 == 0xffff_ffff)
                & (op_kind(body, 0) == 1)
                & (memory_size(body) == 4)))
}

#[tactic(auto, unfolding(crate::specs::Forms::imul_form, crate::specs::Codes::form_number))]
fn imul_form(count: u8) -> u8
    ensures { result ≡ form_number (imul_form count) }
{
    match count {
        0..=1 => 39,
        3 => 21,
        _ => 22,
    }
}

#[tactic(auto, unfolding(crate::specs::Forms::call_form, crate::specs::Codes::form_number))]
fn call_form(body: &[u8]) -> u8
    ensures { result ≡ form_number (call_form body.now) }
{
    let kind = op_kind(body, 0);
    let base = memory_base(body);
    if kind == 2 {
        return 24;
    }
    if (kind == 1) & (((base == 0x60) | (base == 0x61)) | (base == 0)) {
        return 25;
    }
    26
}

#[tactic(auto, unfolding(crate::specs::Forms::xchg_form, crate::specs::Codes::form_number))]
fn xchg_form(body: &[u8]) -> u8
    ensures { result ≡ form_number (xchg_form body.now) }
{
    if op_kind(body, 0) == 1 {
        return 34;
    }
    if op_kind(body, 1) == 1 {
        return 35;
    }
    39
}

// An instruction that leaves a value in the accumulator.
#[tactic(auto, unfolding(crate::specs::Forms::leaves_value))]
pub fn leaves_value(isa: Isa<'_>, body: &[u8]) -> bool
    ensures { result ≡ leaves_value body.now }
{
    ((0 < op_count(body))
        & (op_kind(body, 0) == 0)
        & (full_register(isa, op_register(body, 0)) == 0x50))
        | (mnemonic(body) == 23)
}

// xor, and, or, where the operands may make it the store of a constant.
#[tactic(auto, unfolding(crate::specs::Forms::logic_form, crate::specs::Forms::plain_form, crate::specs::Codes::form_number))]
fn xor_form(body: &[u8]) -> u8
    ensures { result ≡ form_number (logic_form 6 body.now) }
{
    if is_xor_self(body) { 6 } else { 12 }
}

#[tactic(auto, unfolding(crate::specs::Forms::logic_form, crate::specs::Forms::plain_form, crate::specs::Codes::form_number))]
fn and_form(body: &[u8]) -> u8
    ensures { result ≡ form_number (logic_form 7 body.now) }
{
    if is_and_zero(body) { 6 } else { 10 }
}

#[tactic(auto, unfolding(crate::specs::Forms::logic_form, crate::specs::Forms::plain_form, crate::specs::Codes::form_number))]
fn or_form(body: &[u8]) -> u8
    ensures { result ≡ form_number (logic_form 8 body.now) }
{
    if is_or_ones(body) { 7 } else { 11 }
}

fn logic_form(m: u8, body: &[u8]) -> u8
    requires { (6 ≤ m) × (m ≤ 8) }
    ensures { result ≡ form_number (logic_form m body.now) }
{
    match m {
        6 => xor_form(body),
        7 => and_form(body),
        _ => or_form(body),
    }
}

#[tactic(auto, unfolding(crate::specs::Forms::return_form, crate::specs::Codes::form_number))]
pub fn return_form(value: bool) -> u8
    ensures { result ≡ form_number (return_form value) }
{
    if value { 27 } else { 28 }
}

#[tactic(auto, unfolding(crate::specs::Forms::jump_form, crate::specs::Codes::form_number))]
fn jump_form(body: &[u8]) -> u8
    ensures { result ≡ form_number (jump_form body.now) }
{
    if op_kind(body, 0) == 1 { 29 } else { 30 }
}

// The form of an instruction's own line, where its operands decide it.
#[tactic(auto, unfolding(crate::specs::Forms::insn_form, crate::specs::Codes::form_number))]
pub fn insn_form(isa: Isa<'_>, body: &[u8]) -> u8
    requires body_value { by_operands (mnemonic_of body.now) ≡ true }
    ensures { result ≡ form_number (insn_form false body.now) }
{
    let m = mnemonic(body);
    match m {
        6..=8 => logic_form(m, body),
        20 => imul_form(op_count(body)),
        23 => call_form(body),
        25 => jump_form(body),
        29 => xchg_form(body),
        _ => cast_form(isa, m, body),
    }
}

// Whether one of the six instructions before instruction i of its block, whose first is `first`, leaves a value.
#[tactic(auto, unfolding(crate::specs::Forms::returns_value))]
pub fn returns_value(isa: Isa<'_>, bodies: &[u8], first: u16, i: u16) -> bool
    ensures { result ≡ returns_value bodies.now first i }
{
    for k in 0..6 {
        if value_before(isa, bodies, first, i, k) {
            return true;
        }
    }
    false
}

// Whether instruction i - 1 - k is of the block and leaves a value.
#[tactic(auto, unfolding(crate::specs::Forms::value_before))]
fn value_before(isa: Isa<'_>, bodies: &[u8], first: u16, i: u16, k: u16) -> bool
    requires { k ≤ 6 }
    ensures { result ≡ value_before bodies.now first i k }
{
    if (first as u32) + (k as u32) < (i as u32) {
        return leaves_value(isa, body_at(bodies, i - 1 - k));
    }
    false
}
