// The header, by value, and questions 2 and 3.
ghost use Rattle.std.specs.Prelude.{◌≡◌};
ghost use Rattle.record.specs.Header.{header_of, fields_ok, limits_ok};

use lists::reads::{u8_at, u16_at, u32_at};

#[derive(Clone, Copy)]
pub struct Header {
    pub bits: u16,
    pub convention: u16,
    pub blocks: u16,
    pub instructions: u16,
    pub edges: u16,
    pub atlas: u16,
    pub spans: u16,
    pub frame: u16,
    pub shift: i32,
    pub shifted: u8,
    pub indent: u8,
    pub text: u16,
}

#[tactic(auto, unfolding(crate::specs::Header::header_of))]
pub fn read_header(s: &[u8]) -> Header
    ensures { result ≡ header_of s.now }
{
    Header {
        bits: u16_at(s, 0),
        convention: u16_at(s, 2),
        blocks: u16_at(s, 4),
        instructions: u16_at(s, 6),
        edges: u16_at(s, 8),
        atlas: u16_at(s, 10),
        spans: u16_at(s, 12),
        frame: u16_at(s, 14),
        shift: u32_at(s, 16).cast_signed(),
        shifted: u8_at(s, 20),
        indent: u8_at(s, 21),
        text: u16_at(s, 22),
    }
}

pub fn fields_ok(h: Header) -> bool
    ensures { result ≡ fields_ok h }
{
    ((h.bits == 16) | (h.bits == 32) | (h.bits == 64))
        & (h.convention <= 1)
        & (h.shifted <= 1)
        & ((h.shifted == 1) | (h.shift == 0))
}

pub fn limits_ok(h: Header) -> bool
    ensures { result ≡ limits_ok h }
{
    (h.blocks <= 200)
        & (h.instructions <= 500)
        & (h.edges <= 600)
        & (h.atlas <= 200)
        & (h.spans <= 32)
        & (h.text <= 4000)
        & (h.indent <= 55)
}
