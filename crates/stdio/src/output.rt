// A program's output.
ghost use Rattle.std.specs.Prelude.{IsTrue};
ghost use Rattle.std.specs.Io.KnownBytes.{Appends};

use std::io::{ErrorKind, Write};

// Writes all of a text, or answers no. Each byte has a try, and 64 more make up for writes that a signal interrupts: where all are
// interrupted, it gives up.
fn write_whole<W: Write>(text: &[u8], to: &mut W) -> bool
    ensures { IsTrue result → Appends (W.contents to.old) (W.contents to.new) text.now }
{
    let mut rest = text;
    for _ in 0..text.len().saturating_add(64) {
        if rest.is_empty() {
            return true;
        }
        match to.write(rest) {
            Ok(0) => return false,
            Ok(n) => rest = &rest[n..],
            Err(e) => {
                if e.kind() != ErrorKind::Interrupted {
                    return false;
                }
            }
        }
    }
    rest.is_empty()
}

// Prints an answer, and answers whether that could be done; if not, `errors` gets the refusal, as one text: in parts it could be torn.
// Where writes are interrupted again and again it gives up, as programs are to.
pub fn print_or_refuse<O: Write, E: Write>(
    answer: &[u8],
    refusal: &[u8],
    output: &mut O,
    errors: &mut E,
) -> bool
    ensures { IsTrue result → Appends (O.contents output.old) (O.contents output.new) answer.now }
{
    if write_whole(answer, output) {
        return true;
    }
    let _ = write_whole(refusal, errors);
    false
}

// Prints an answer, and answers whether that could be done; if not, `errors` says so. How often it tries is left to the writer's own
// `write_all`.
pub fn print_answer<O: Write, E: Write>(
    answer: &[u8],
    name: &[u8],
    output: &mut O,
    errors: &mut E,
) -> bool
    ensures { IsTrue result → Appends (O.contents output.old) (O.contents output.new) answer.now }
{
    if output.write_all(answer).is_ok() {
        return true;
    }
    let _ = errors.write_all(name);
    let _ = errors.write_all(b": standard output cannot be written\n");
    false
}

#[cfg(test)]
mod tests {
    use super::{print_answer, print_or_refuse};
    use std::io;
    use std::io::{Cursor, ErrorKind, Write, sink};

    // A writer that is interrupted so often before it takes a text.
    #[derive(Drop)]
    struct Interrupted {
        left: u32,
        taken: usize,
    }

    impl Write for Interrupted {
        fn write(&mut self, buf: &[u8]) -> io::Result<usize> {
            if self.left > 0 {
                self.left -= 1;
                return Err(io::Error::from(ErrorKind::Interrupted));
            }
            self.taken = self.taken.saturating_add(buf.len());
            Ok(buf.len())
        }

        fn flush(&mut self) -> io::Result<()> {
            Ok(())
        }
    }

    fn interrupted_by(left: u32) -> Interrupted {
        Interrupted { left, taken: 0 }
    }

    #[test]
    fn goes_on_or_gives_up(rt: HostRuntime) {
        let mut patient = interrupted_by(1000);
        assert!(rt; print_answer(b"no 1\n", b"p", &mut patient, &mut sink()));
        assert_eq!(rt; patient.taken, 5);
        let mut few = interrupted_by(68);
        assert!(rt; print_or_refuse(b"no 1\n", b"p", &mut few, &mut sink()));
        let mut many = interrupted_by(69);
        assert!(rt; !print_or_refuse(b"no 1\n", b"p", &mut many, &mut sink()));
        assert_eq!(rt; many.taken, 0);
    }

    #[test]
    fn says_what_failed(rt: HostRuntime) {
        let want = b"p: standard output cannot be written\n";
        let mut short = Cursor::new([0u8; 2]);
        let mut said = Cursor::new([0u8; 64]);
        assert!(rt; !print_answer(b"no 1\n", b"p", &mut short, &mut said));
        assert_eq!(rt; said.position(), 37);
        assert_eq!(rt; &said.get_ref()[..37], want.as_slice());
        let mut same = Cursor::new([0u8; 64]);
        assert!(rt; !print_or_refuse(b"no 1\n", want, &mut short, &mut same));
        assert_eq!(rt; same.position(), 37);
        assert_eq!(rt; &same.get_ref()[..37], want.as_slice());
    }
}
