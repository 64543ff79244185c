// Where a reader of rows stands: a state and the next byte give the next state, and what the byte makes the reader store.
ghost use Rattle.std.specs.Prelude.{◌≡◌, true, ◌-◌, ◌+◌, ◌<◌};
ghost use Rattle.lists.specs.Choice.{pick};
ghost use Rattle.csv_rows.specs.Reading.{is_digit, is_hex, hex_value, goes_on, longer, kind_of, after_hex, is_start, effect as effect_of, next as next_of};

// What was read of a row: n digits of the address with value v; then whether it has an address and which, the indent, the place.
#[derive(Clone, Copy)]
pub enum At {
    Start,
    Hex(u8, u64),
    IndentStart(bool, u64),
    Indent(bool, u64, u8),
    PlaceStart(bool, u64, u8),
    Place(bool, u64, u8, u16),
    Letter,
    Comma,
    Quote,
    Open,
    OpenQuote,
    Text,
    TextQuote,
    Cr,
    Bad,
}

// What a byte makes the reader store.
#[derive(Clone, Copy)]
pub enum Effect {
    Silent,
    Byte,
    Kind,
    TokenEnd,
    Head(bool, u64, u8, u16),
    RowEnd,
}

// The state if a test passes.
fn when(t: bool, s: At) -> At
    ensures { result ≡ pick t s At.Bad }
{
    if t { s } else { At::Bad }
}

// The kind whose letter a byte is, 8 if none: a number and no `Option`, since it is stored in a lent list of kinds and compared there.
pub fn kind_of(c: u8) -> u8
    ensures { result ≡ kind_of c }
{
    match c {
        b'X' => 0,
        b'R' => 1,
        b'N' => 2,
        b'K' => 3,
        b'S' => 4,
        b'A' => 5,
        b'P' => 6,
        b'F' => 7,
        _ => 8,
    }
}

fn is_digit(c: u8) -> bool
    ensures { result ≡ is_digit c }
{
    c.is_ascii_digit()
}

fn is_hex(c: u8) -> bool
    ensures { result ≡ is_hex c }
{
    is_digit(c) | ((b'A' <= c) & (c <= b'F'))
}

fn hex_value(c: u8) -> u8
    ensures { (result ≡ hex_value c) × (result < 16) }
{
    if c <= 57 {
        return c.saturating_sub(48) % 16;
    }
    (c - 55) % 16
}

// The state behind n digits of an address and one more byte.
fn after_hex(n: u8, v: u64, c: u8) -> At
    ensures { result ≡ after_hex n v c }
{
    if n < 16 {
        if v < 1152921504606846976 {
            return when(is_hex(c), At::Hex(n + 1, v * 16 + u64::from(hex_value(c))));
        }
        return At::Bad;
    }
    when(c == b',', At::IndentStart(true, v))
}

// The state behind an indent that a byte may make longer, and behind such a place.
fn more_indent(h: bool, a: u64, x: u8, c: u8) -> At
    ensures { result ≡ pick (goes_on 254 x c) (At.Indent h a (longer x c)) At.Bad }
{
    let y = u32::from(x) * 10 + u32::from(c.saturating_sub(48));
    if y <= 254 {
        return when(is_digit(c) & (0 < x), At::Indent(h, a, y as u8));
    }
    At::Bad
}

fn more_place(h: bool, a: u64, x: u8, p: u16, c: u8) -> At
    ensures { result ≡ pick (goes_on 65535 p c) (At.Place h a x (longer p c)) At.Bad }
{
    let y = u32::from(p) * 10 + u32::from(c.saturating_sub(48));
    if y <= 65535 {
        return when(is_digit(c) & (0 < p), At::Place(h, a, x, y as u16));
    }
    At::Bad
}

pub fn next(s: At, c: u8) -> At
    ensures { result ≡ next_of s c }
{
    match s {
        At::Start if c == b',' => At::IndentStart(false, 0),
        At::Start => after_hex(0, 0, c),
        At::Hex(n, v) => after_hex(n, v, c),
        At::IndentStart(h, a) => when(is_digit(c), At::Indent(h, a, c.saturating_sub(48))),
        At::Indent(h, a, x) if c == b',' => At::PlaceStart(h, a, x),
        At::Indent(h, a, x) => more_indent(h, a, x, c),
        At::PlaceStart(h, a, x) => when(
            is_digit(c),
            At::Place(h, a, x, u16::from(c.saturating_sub(48))),
        ),
        At::Place(_, _, _, _) if c == b',' => At::Letter,
        At::Place(h, a, x, p) => more_place(h, a, x, p, c),
        At::Letter => when(kind_of(c) < 8, At::Comma),
        At::Comma => when(c == b',', At::Quote),
        At::Quote => when(c == b'"', At::Open),
        At::Open => if c == b'"' { At::OpenQuote } else { At::Text },
        At::OpenQuote => when(c == b'"', At::Text),
        At::Text => if c == b'"' { At::TextQuote } else { At::Text },
        At::TextQuote => match c {
            b'"' => At::Text,
            b',' => At::Letter,
            b'\r' => At::Cr,
            _ => At::Bad,
        },
        At::Cr => when(c == b'\n', At::Start),
        At::Bad => At::Bad,
    }
}

// Whether a file may end here.
pub fn is_start(s: At) -> bool
    ensures { result ≡ is_start s }
{
    matches!(s, At::Start)
}

pub fn effect_of(s: At, c: u8) -> Effect
    ensures { result ≡ effect_of s c }
{
    match s {
        At::Place(h, a, x, p) if c == b',' => Effect::Head(h, a, x, p),
        At::Letter => Effect::Kind,
        At::Open if c != b'"' => Effect::Byte,
        At::OpenQuote => Effect::Byte,
        At::Text if c != b'"' => Effect::Byte,
        At::TextQuote => if c == b'"' {
            Effect::Byte
        } else {
            Effect::TokenEnd
        },
        At::Cr => Effect::RowEnd,
        _ => Effect::Silent,
    }
}

// The mark of a row: its indent, plus 256 if it has an address.
pub fn mark_of(h: bool, x: u8) -> u16
    ensures { result ≡ pick h (x + 256) x }
{
    u16::from(x) + u16::from(h) * 256
}
