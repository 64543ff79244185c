// The two calling conventions: which registers hold arguments, and how many of them a call prints.
ghost use Rattle.std.specs.Prelude.{◌≡◌, ◌-◌};
ghost use Rattle.std.specs.Int.Count.{count_leading_zeros};
ghost use Rattle.x86.specs.Conventions.{argument_register, argument_count, with_written, positions, microsoft, system_v};

const MICROSOFT: [u8; 4] = [81, 82, 88, 89];

const SYSTEM_V: [u8; 6] = [87, 86, 82, 81, 88, 89];

// The register of argument k, 0 past the last.
pub fn argument_register(convention: u16, k: u8) -> u8
    ensures { result ≡ argument_register convention k }
{
    if convention == 0 {
        if k < 4 {
            return MICROSOFT[k as usize];
        }
        return 0;
    }
    if k < 6 {
        return SYSTEM_V[k as usize];
    }
    0
}

// A mask with the bit of a full register set; another register has no bit.
pub fn with_written(mask: u16, full: u8) -> u16
    ensures { result ≡ with_written mask full }
{
    if full < 80 {
        return mask;
    }
    if full < 96 {
        return mask | 1 << (full - 80) as u32;
    }
    mask
}

// Bit k for the k-th register of Microsoft's convention: rcx rdx r8 r9.
fn microsoft_positions(mask: u16) -> u16
    ensures { result ≡ positions mask microsoft }
{
    (mask >> 1) % 2 + 2 * ((mask >> 2) % 2 + 2 * ((mask >> 8) % 2 + 2 * ((mask >> 9) % 2)))
}

// Bit k for the k-th register of System V's: rdi rsi rdx rcx r8 r9.
fn system_v_positions(mask: u16) -> u16
    ensures { result ≡ positions mask system_v }
{
    let low = (mask >> 7) % 2 + 2 * ((mask >> 6) % 2 + 2 * ((mask >> 2) % 2));
    low + 8 * ((mask >> 1) % 2 + 2 * ((mask >> 8) % 2 + 2 * ((mask >> 9) % 2)))
}

// The place behind the last bit that is set: the leading zeros give it.
fn after_last(p: u16) -> u8
    ensures { result ≡ 16 - count_leading_zeros 16 p }
{
    (16 - u16::leading_zeros(p)) as u8
}

// How many arguments a call prints: up to the last convention register written.
pub fn argument_count(convention: u16, mask: u16) -> u8
    ensures { result ≡ argument_count convention mask }
{
    if convention == 0 {
        return after_last(microsoft_positions(mask));
    }
    after_last(system_v_positions(mask))
}
