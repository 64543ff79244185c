// The questions of a record and a range as one number.
ghost use Rattle.std.specs.Prelude.{◌≡◌};
ghost use Rattle.record.specs.Asked.{first_no};

use record::asked::record;

// The first question of 1 to 11 and 15 that gets a no, or 0.
#[unsafe(no_mangle)]
pub extern "C" fn record_first_no(bytes: &[u8], from: usize, to: usize) -> u8
    ensures { result ≡ first_no bytes.now from to }
{
    match record(bytes, from, to) {
        Ok(_) => 0,
        Err(q) => u8::from(q),
    }
}
