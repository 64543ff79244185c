// Stack slots: which base and which displacement a memory operand has, and whether it is a slot.
ghost use Rattle.std.specs.Prelude.{◌≡◌};
ghost use Rattle.lists.specs.Signed.{signed_at};
ghost use Rattle.record.specs.Body.{memory_address};
ghost use Rattle.operand.specs.Memory.{is_frame, is_shifted, slot_base, slot_displacement, slot_number, is_slot, displacement};
ghost use Rattle.operand.specs.Sized.{sized_of};

use crate::numbers::{Sized, shifted, size_of};
use lists::signed::signed_at;
use record::body::{memory_address, memory_base, memory_index};
use record::header::Header;
use x86::width::{adds_to_word, is_stack_pointer, stack_pointer};

fn is_frame(h: Header, r: u8) -> bool
    ensures { result ≡ is_frame h r }
{
    (r != 0) & (r as u16 == h.frame)
}

// The frame register with a shift stands for the stack pointer.
fn is_shifted(h: Header, body: &[u8]) -> bool
    ensures { result ≡ is_shifted h body.now }
{
    (h.shifted == 1) & is_frame(h, memory_base(body)) & (memory_index(body) == 0)
}

#[tactic(auto, unfolding(crate::specs::Memory::slot_base))]
pub fn slot_base(h: Header, body: &[u8]) -> u8
    ensures { result ≡ slot_base h body.now }
{
    if is_shifted(h, body) {
        return stack_pointer(h.bits);
    }
    memory_base(body)
}

// The displacement as it is added to a word register.
fn word_displacement(body: &[u8]) -> i64
    ensures { result ≡ signed_at 16 (memory_address body.now) }
{
    signed_at(memory_address(body) % 65536, 0x8000)
}

// The displacement of a slot: all 64 bits, or the low 16 where it is added to a word register of 16-bit code.
#[tactic(auto, unfolding(crate::specs::Memory::slot_displacement))]
fn slot_displacement(h: Header, body: &[u8]) -> i64
    ensures { result ≡ slot_displacement h body.now }
{
    if adds_to_word(h.bits, memory_base(body), memory_index(body)) {
        return word_displacement(body);
    }
    signed_at(memory_address(body), 0x8000_0000_0000_0000)
}

#[tactic(auto, unfolding(crate::specs::Memory::slot_number))]
pub fn slot_number(h: Header, body: &[u8]) -> Sized
    ensures { result ≡ sized_of (slot_number h body.now) }
{
    let d = slot_displacement(h, body);
    if is_shifted(h, body) {
        let by = h.shift;
        return shifted(d, by);
    }
    size_of(d)
}

// By the frame register, or by the stack pointer and not below it.
#[tactic(auto, unfolding(crate::specs::Memory::is_slot))]
pub fn is_slot(h: Header, body: &[u8]) -> bool
    ensures { result ≡ is_slot h body.now }
{
    let base = slot_base(h, body);
    let sp = is_stack_pointer(h.bits, base);
    if (memory_index(body) != 0) | !(is_frame(h, base) | sp) {
        return false;
    }
    !(sp & slot_number(h, body).negative)
}

// The displacement that an address prints: never shifted, by the width of the code or of the register it is added to.
#[tactic(auto, unfolding(crate::specs::Memory::displacement))]
fn address_displacement(h: Header, body: &[u8]) -> i64
    ensures { result ≡ displacement h body.now }
{
    if adds_to_word(h.bits, memory_base(body), memory_index(body)) {
        return word_displacement(body);
    }
    let v = memory_address(body);
    if h.bits == 64 {
        return signed_at(v, 0x8000_0000_0000_0000);
    }
    signed_at(v % 4294967296, 0x8000_0000)
}

pub fn displacement(h: Header, body: &[u8]) -> Sized
    ensures { result ≡ sized_of (displacement h body.now) }
{
    size_of(address_displacement(h, body))
}
