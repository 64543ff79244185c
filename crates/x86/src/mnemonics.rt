// Mnemonics by number, from the table.
ghost use Rattle.std.specs.Prelude.{◌≡◌};
ghost use Rattle.x86.specs.Mnemonics.{writes_flags};

use super::table::Isa;

pub fn writes_flags(isa: Isa<'_>, m: u8) -> bool
    ensures { result ≡ writes_flags m }
{
    isa.column(1295, 16, 46, m, 0) == 1
}
