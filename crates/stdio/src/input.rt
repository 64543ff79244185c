// A program's input.
ghost use Rattle.std.specs.Prelude.{◌≡◌, ◌≤◌, length};
ghost use Rattle.stdio.specs.Input.{bytes_read, HasRead};

use std::io;
use std::io::Read;

// Reads until the list is full or the input ends: the list then begins with the bytes that came. Answers how many. No counted loop: a
// read gives as many bytes as it will.
pub fn read_input<R: Read>(from: &mut R, list: &mut [u8]) -> io::Result<usize>
    ensures count { bytes_read result 0 ≤ length list.old }
    ensures bytes { HasRead result (R.remaining from.old) (R.remaining from.new) list.new }
{
    let mut n = 0;
    while n < list.len() {
        match from.read(&mut list[n..])? {
            0 => return Ok(n),
            more => n += more,
        }
    }
    Ok(n)
}

// How many bytes there are to answer. Where reading failed it is a number that the program refuses, and `errors` says why.
pub fn bytes_read(
    input: io::Result<usize>,
    failed: usize,
    name: &[u8],
    errors: &impl Print,
) -> usize
    ensures { result ≡ bytes_read input failed }
{
    match input {
        Ok(n) => n,
        Err(_) => {
            let _ = errors.write_all(name);
            let _ = errors.write_all(b": standard input cannot be read\n");
            failed
        }
    }
}
