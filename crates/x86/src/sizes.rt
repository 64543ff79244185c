// Which of the fixed words for a size in bytes is meant.
ghost use Rattle.std.specs.Prelude.{◌≡◌};
ghost use Rattle.x86.specs.Sizes.{size_index, prefix_index};

// Among uint8_t uint16_t uint32_t uint64_t __m128 __m256 void.
pub fn size_index(size: u16) -> u8
    ensures { result ≡ size_index size }
{
    match size {
        1 => 0,
        2 => 1,
        4 => 2,
        8 => 3,
        16 => 4,
        32 => 5,
        _ => 6,
    }
}

// Among byte_ word_ dword_ qword_ unk_.
pub fn prefix_index(size: u16) -> u8
    ensures { result ≡ prefix_index size }
{
    match size {
        1 => 0,
        2 => 1,
        4 => 2,
        8 => 3,
        _ => 4,
    }
}
