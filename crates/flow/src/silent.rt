// Which instructions are silent by themselves, and how a block ends: over the part of the record that begins at a body.
ghost use Rattle.std.specs.Prelude.{◌≡◌, ◌||◌, eqb, ◌≤◌};
ghost use Rattle.flow.specs.Classes.{silent_class, class_table};
ghost use Rattle.flow.specs.Silent.{folded, padding, register_first, moves_frame, is_prologue_noise, is_direct_jmp, is_skipped, is_silent_itself, ending_of};

use lists::reads::plain_u8;
use record::body::{
    condition_code, is_conditional_branch, mnemonic, op_kind, op_register, skip_mark,
};
use x86::registers::callee_saved;
use x86::table::Isa;
use x86::width::is_stack_pointer;

fn either(m: u8, a: u8, b: u8) -> bool
    ensures { result ≡ (eqb m a || eqb m b) }
{
    (m == a) | (m == b)
}

// cmp, test, push, cdq, cqo, cdqe, cwde.
fn is_folded(m: u8) -> bool
    ensures { result ≡ folded m }
{
    (m == 38) | (m == 39) | (m == 21) | (m == 32) | (m == 33) | (m == 34) | (m == 35)
}

// leave, nop, int3, endbr64, endbr32.
fn is_padding(m: u8) -> bool
    ensures { result ≡ padding m }
{
    (41 <= m) & (m <= 45)
}

fn register_first(body: &[u8]) -> bool
    ensures { result ≡ register_first body.now }
{
    op_kind(body, 0) == 0
}

// A copy of the stack pointer to the frame register, if there is one, or a write of the stack pointer.
fn moves_frame(bits: u16, frame: u16, body: &[u8]) -> bool
    ensures { result ≡ moves_frame bits frame body.now }
{
    let to = op_register(body, 0);
    ((frame != 0)
        & (to as u16 == frame)
        & (op_kind(body, 1) == 0)
        & is_stack_pointer(bits, op_register(body, 1)))
        | is_stack_pointer(bits, to)
}

// Saves and restores of the registers that a callee saves, moves of the stack pointer, and padding.
#[tactic(auto, unfolding(crate::specs::Silent::is_prologue_noise))]
pub fn is_prologue_noise(isa: Isa<'_>, bits: u16, frame: u16, body: &[u8]) -> bool
    ensures { result ≡ is_prologue_noise bits frame body.now }
{
    let m = mnemonic(body);
    if either(m, 21, 22) {
        return register_first(body) & callee_saved(isa, op_register(body, 0));
    }
    if either(m, 10, 9) {
        return register_first(body)
            & is_stack_pointer(bits, op_register(body, 0))
            & (op_kind(body, 1) != 0);
    }
    if m == 1 {
        return register_first(body) & moves_frame(bits, frame, body);
    }
    if m == 5 {
        return register_first(body) & is_stack_pointer(bits, op_register(body, 0));
    }
    is_padding(m)
}

pub fn is_direct_jmp(body: &[u8]) -> bool
    ensures { result ≡ is_direct_jmp body.now }
{
    (mnemonic(body) == 25) & (op_kind(body, 0) == 2)
}

pub fn is_skipped(isa: Isa<'_>, bits: u16, frame: u16, body: &[u8]) -> bool
    ensures { result ≡ is_skipped bits frame body.now }
{
    (skip_mark(body) == 1) | is_prologue_noise(isa, bits, frame, body)
}

#[tactic(auto, unfolding(crate::specs::Silent::is_silent_itself))]
pub fn is_silent_itself(isa: Isa<'_>, bits: u16, frame: u16, body: &[u8]) -> bool
    ensures { result ≡ is_silent_itself bits frame body.now }
{
    is_skipped(isa, bits, frame, body) | is_folded(mnemonic(body)) | is_direct_jmp(body)
}

// By mnemonic: 1 silent whatever its operands are, 2 where these decide, 0 shown unless marked.
pub type ClassTable = [u8; 256];

const CLASSES: ClassTable = *b"\
    \0\x02\0\0\0\x02\0\0\0\x02\x02\0\0\0\0\0\
    \0\0\0\0\0\x01\x02\0\0\x02\0\0\0\0\0\0\
    \x01\x01\x01\x01\0\0\x01\x01\0\x01\x01\x01\x01\x01\0\0\
    \0\0\0\0\0\0\0\0\0\0\0\0\0\0\0\0\
    \0\0\0\0\0\0\0\0\0\0\0\0\0\0\0\0\
    \0\0\0\0\0\0\0\0\0\0\0\0\0\0\0\0\
    \0\0\0\0\0\0\0\0\0\0\0\0\0\0\0\0\
    \0\0\0\0\0\0\0\0\0\0\0\0\0\0\0\0\
    \0\0\0\0\0\0\0\0\0\0\0\0\0\0\0\0\
    \0\0\0\0\0\0\0\0\0\0\0\0\0\0\0\0\
    \0\0\0\0\0\0\0\0\0\0\0\0\0\0\0\0\
    \0\0\0\0\0\0\0\0\0\0\0\0\0\0\0\0\
    \0\0\0\0\0\0\0\0\0\0\0\0\0\0\0\0\
    \0\0\0\0\0\0\0\0\0\0\0\0\0\0\0\0\
    \0\0\0\0\0\0\0\0\0\0\0\0\0\0\0\0\
    \0\0\0\0\0\0\0\0\0\0\0\0\0\0\0\0";

#[tactic(auto, unfolding(crate::specs::Classes::silent_class, crate::specs::Classes::class_table))]
pub fn class_table() -> ClassTable
    ensures { result ≡ class_table }
{
    CLASSES
}

// That table, lent.
#[derive(Clone, Copy)]
pub struct Classes<'a> {
    pub bytes: &'a [u8],
    pub ghost whole: { bytes.now ≡ class_table },
}

// A number and no enum, since the table is one of bytes.
#[tactic(auto, using(crate::proofs::Classes::class_read, crate::proofs::Classes::class_length))]
pub fn silent_class(classes: Classes<'_>, m: u8) -> u8
    ensures { result ≡ silent_class m }
{
    plain_u8(classes.bytes, m as usize)
}

// How a block with this last instruction ends: 1 with a condition, 2 with a condition and a near branch, 3 with a direct jmp. A number and no enum,
// since it stands in a block's row.
#[tactic(auto, unfolding(crate::specs::Silent::ending_of))]
pub fn ending_of(body: &[u8]) -> u8
    ensures { (result ≡ ending_of body.now) × (result ≤ 3) }
{
    if is_conditional_branch(body) {
        return 2;
    }
    if condition_code(body) != 0 {
        return 1;
    }
    if is_direct_jmp(body) {
        return 3;
    }
    0
}
