// Conditions by number, from the table. A relation is 0 ==, 1 !=, 2 <, 3 >=, 4 <=, 5 >, and 6 for none: no enum,
// since these are bytes of the table.
ghost use Rattle.std.specs.Prelude.{◌≡◌};
ghost use Rattle.x86.specs.Conditions.{relation_after_cmp, relation_after_test, relation_after_other, prints_unsigned, negate as negated};

use super::table::Isa;

// One reader for each column: with the column as an argument the rules would lose their names.
pub fn relation_after_cmp(isa: Isa<'_>, c: u8) -> u8
    ensures { result ≡ relation_after_cmp c }
{
    isa.column(2016, 8, 17, c, 6)
}

pub fn relation_after_test(isa: Isa<'_>, c: u8) -> u8
    ensures { result ≡ relation_after_test c }
{
    isa.column(2017, 8, 17, c, 6)
}

pub fn relation_after_other(isa: Isa<'_>, c: u8) -> u8
    ensures { result ≡ relation_after_other c }
{
    isa.column(2018, 8, 17, c, 6)
}

// After CMP the relation is one of unsigned numbers.
pub fn prints_unsigned(isa: Isa<'_>, c: u8) -> bool
    ensures { result ≡ prints_unsigned c }
{
    isa.column(2019, 8, 17, c, 0) == 1
}

pub fn negate(isa: Isa<'_>, c: u8) -> u8
    ensures { result ≡ negated c }
{
    isa.column(2020, 8, 17, c, c)
}
