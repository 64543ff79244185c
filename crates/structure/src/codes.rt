// What the code of a planned line tells.
ghost use Rattle.std.specs.Prelude.{◌≡◌};
ghost use Rattle.structure.specs.Reads.{what_in, instruction_in, place_in, indent_in};

// What the line is: 0 label, 1 do, 2 open, 3 if-goto, 4 while, 5 close, 6 goto, 7 tail call, 8 instruction. A number and
// no enum, since it is four bits of a code in a lent list.
pub fn what_of(code: u64) -> u8
    ensures { result ≡ what_in code }
{
    (code % 16) as u8
}

// One reader for each part of a code: with its place as an argument the names would be lost.
pub fn instruction_of(code: u64) -> u16
    ensures { result ≡ instruction_in code }
{
    (code / 16 % 65536) as u16
}

pub fn place_of_line(code: u64) -> u16
    ensures { result ≡ place_in code }
{
    (code / 1048576 % 65536) as u16
}

pub fn indent_of(code: u64) -> u32
    ensures { result ≡ indent_in code }
{
    (code / 68719476736) as u32
}
