// A routine's blocks by their endings: each is a single instruction.
ghost use Rattle.std.specs.Prelude.{◌≡◌, true, ◌<◌, ◌≤◌, ◌+◌, eqb, length, get_or};
ghost use Rattle.routines.specs.declared.ending.Ending.TheVariants.{Ret};
ghost use Rattle.routines.specs.Numbered.{endings, routine_at};
ghost use Rattle.routines.specs.Written.{inside};

// A return, a move that falls to the next block, a jump to a block, a conditional jump to a block.
#[derive(Clone, Copy)]
pub enum Ending {
    Ret,
    Fall,
    Jmp(usize),
    Jne(usize),
}

// How many blocks routine k has: 2 of one, 18 of two, 256 of three.
pub fn blocks_of(k: usize) -> usize
    requires { k < 276 }
    ensures { (result ≡ length (routine_at k)) × (result ≤ 3) }
{
    if k < 2 {
        return 1;
    }
    if k < 20 { 2 } else { 3 }
}

// Which of its place's endings block j of routine k has, from 0. Of two blocks the first has 6 and the last 3, of three 8, 8 and 4.
fn choice_at(k: usize, j: usize) -> usize
    requires { (k < 276) × (j < length (routine_at k)) }
    ensures { (result < length (endings (length (routine_at k)) (eqb (j + 1) (length (routine_at k))))) × (get_or (endings (length (routine_at k)) (eqb (j + 1) (length (routine_at k)))) result Ret ≡ get_or (routine_at k) j Ret) }
{
    if k < 2 {
        return k;
    }
    if k < 20 {
        let n = k - 2;
        return if j == 0 { n / 3 } else { n % 3 };
    }
    let n = k - 20;
    if j == 0 {
        return n / 32;
    }
    if j == 1 { n / 4 % 8 } else { n % 4 }
}

// Block j's ending in routine k.
pub fn ending_at(k: usize, j: usize) -> Ending
    requires { (k < 276) × (j < length (routine_at k)) }
    ensures { (result ≡ get_or (routine_at k) j Ret) × (inside result ≡ true) }
{
    let n = blocks_of(k);
    let choice = choice_at(k, j);
    if choice == 0 {
        return Ending::Ret;
    }
    if j + 1 == n {
        return Ending::Jmp(choice - 1);
    }
    if choice == 1 {
        return Ending::Fall;
    }
    if choice - 2 < n {
        return Ending::Jmp(choice - 2);
    }
    Ending::Jne(choice - 2 - n)
}
