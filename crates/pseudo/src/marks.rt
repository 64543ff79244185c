// The lines' addresses, marks and places, each from its line's code.
ghost use Rattle.std.specs.Prelude.{map, ◌≡◌, ◌<◌, ◌≤◌, length};
ghost use Rattle.lists.specs.Put.{put};
ghost use Rattle.structure.specs.Reads.{indent_in};
ghost use Rattle.line.specs.Lines.{line_in};
ghost use Rattle.pseudo.specs.Listed.{line_address, line_mark, line_place};
ghost use Rattle.pseudo.specs.Marks.{Indented};

use lists::parts::from;
use record::blocks::{Place, start_at};
use record::body::address_at;
use record::header::Header;
use record::layout::addresses_at;
use structure::codes::{indent_of, instruction_of, place_of_line, what_of};

// A label's and a do-line's is its block's start, a lone brace has none, every other line has its instruction's.
fn line_address(rec: &[u8], h: Header, code: u64) -> u64
    ensures { result ≡ line_address h rec.now (line_in code) }
{
    let what = what_of(code);
    if what < 2 {
        return start_at(from(rec, 24), Place(place_of_line(code))).0;
    }
    if what == 5 {
        return 0;
    }
    address_at(from(rec, addresses_at(h)), instruction_of(code))
}

// The indent, and 256 if the line has an address: a lone brace has none.
fn line_mark(code: u64) -> u16
    requires { indent_in code < 256 }
    ensures { result ≡ line_mark (line_in code) }
{
    let indent = indent_of(code) as u16;
    if what_of(code) == 5 {
        return indent;
    }
    indent + 256
}

// The address, the mark and the place of each line, into lists that have room for them.
pub fn put_marks(
    addresses: &mut [u64],
    marks: &mut [u16],
    places: &mut [u16],
    rec: &[u8],
    h: Header,
    codes: &[u64],
)
    requires indented { Indented codes.now }
    requires codes_in_bounds { (length codes.now ≤ length addresses.old) × (length codes.now ≤ length marks.old) × (length codes.now ≤ length places.old) }
    ensures addresses { addresses.new ≡ put 0 (map (line_address h rec.now) (map line_in codes.now)) addresses.old }
    ensures marks { marks.new ≡ put 0 (map line_mark (map line_in codes.now)) marks.old }
    ensures places { places.new ≡ put 0 (map line_place (map line_in codes.now)) places.old }
{
    for i in 0..codes.len() {
        let code = codes[i];
        addresses[i] = line_address(rec, h, code);
        marks[i] = line_mark(code);
        places[i] = place_of_line(code);
    }
}
