// Prints small routine k as a record, k read in decimal from standard input, or `no 18`.
#![tactic(auto)]

ghost use Rattle.std.specs.Prelude.{◌≡◌, true, false, ℕ, ◌≤◌, ◌<◌, length, take, MatchOption};
ghost use Rattle.routine.specs.Output.{Says, Prints};

use lists::parts::part;
use lists::question::Question;
use lists::stores::store;
use page::number::put_stored;
use routines::routine::routine;
use stdio::input::{bytes_read, read_input};
use stdio::output::print_or_refuse;
use text::decimal::put_decimal;

// Whether a text says number k.
fn says(s: &[u8], k: u16) -> bool
    ensures { (result ≡ true → Says s.now k) × (Says s.now k → result ≡ true) }
{
    let mut digits = [0u8; 6];
    let n = put_decimal(&mut digits, 0, k);
    store(&mut digits, n, b'\n');
    (s == part(&digits, 0, n)) | (s == part(&digits, 0, n + 1))
}

// The number below 276 that a text says.
fn number_in(s: &[u8]) -> Option<u16>
    ensures { MatchOption result ((k : ℕ) → k < 276 → Says s.now k → ⊥) (λ k. (k < 276) × Says s.now k × ((j : ℕ) → j < k → Says s.now j → ⊥)) }
{
    (0..276).find(|&k| says(s, k))
}

// What the program prints; answers how many bytes that is. The longest record has 405.
fn answer(s: &[u8], out: &mut [u8]) -> usize
    requires { 405 ≤ length out.old }
    ensures { Prints s.now (take result out.new) }
{
    let made = match number_in(s) {
        Some(k) => routine(k.into(), out),
        None => Err(Question::Routine),
    };
    put_stored(out, made)
}

// Reads at most 16 bytes, more than any number below 276 has. What cannot be read is no number.
// No heap: what it fills are arrays.
fn main(rt: HostRuntime) {
    let mut text = [0u8; 16];
    let n = bytes_read(
        read_input(&mut rt.stdin(), &mut text),
        0,
        b"routine",
        &rt.stderr(),
    );
    let mut out = [0u8; 405];
    let m = answer(part(&text, 0, n), &mut out);
    let _ = print_or_refuse(
        part(&out, 0, m),
        b"routine: standard output cannot be written\n",
        &mut rt.stdout(),
        &mut rt.stderr(),
    );
}
