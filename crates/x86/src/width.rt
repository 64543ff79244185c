// What the width of the code decides.
ghost use Rattle.std.specs.Prelude.{◌≡◌, ◌<◌};
ghost use Rattle.x86.specs.Width.{general_register, return_register, stack_pointer, is_stack_pointer, passes_registers, adds_to_word};

fn general_register(bits: u16, i: u8) -> u8
    requires { i < 16 }
    ensures { result ≡ general_register bits i }
{
    if bits == 64 {
        return 0x50 + i;
    }
    if bits == 16 {
        return 0x30 + i;
    }
    0x40 + i
}

// Two registers by name over one rule.
pub fn return_register(bits: u16) -> u8
    ensures { result ≡ return_register bits }
{
    general_register(bits, 0)
}

pub fn stack_pointer(bits: u16) -> u8
    ensures { result ≡ stack_pointer bits }
{
    general_register(bits, 4)
}

pub fn is_stack_pointer(bits: u16, r: u8) -> bool
    ensures { result ≡ is_stack_pointer bits r }
{
    if r % 16 != 4 {
        return false;
    }
    (r == 0x44) | (r == 0x54) | (r == stack_pointer(bits))
}

// Whether a call's arguments are registers.
pub fn passes_registers(bits: u16) -> bool
    ensures { result ≡ passes_registers bits }
{
    bits == 64
}

// Whether a displacement is added to a word register of 16-bit code.
pub fn adds_to_word(bits: u16, base: u8, index: u8) -> bool
    ensures { result ≡ adds_to_word bits base index }
{
    if bits != 16 {
        return false;
    }
    (base / 16 == 3) | (index / 16 == 3)
}
