// The seven lists of a listing, lent to be read: a contract sees them as one record.
ghost use Rattle.std.specs.Prelude.{◌≡◌};
ghost use Rattle.rows.specs.Lists.{Lists, lists_of, rooms_of, cut, NumbersFit};

use crate::answer::{Rooms, Sizes};
use lists::parts::part;
use std::marker::Model;

#[derive(Drop)]
pub struct Listing<'a> {
    pub text: &'a [u8],
    pub ends: &'a [u32],
    pub kinds: &'a [u8],
    pub addresses: &'a [u64],
    pub marks: &'a [u16],
    pub places: &'a [u16],
    pub lines: &'a [u32],
}

impl<'a> Model for Listing<'a> {
    ghost Value = { Lists };

    ghost view = { λ l. lists_of l.text.now l.ends.now l.kinds.now l.addresses.now l.marks.now l.places.now l.lines.now };
}

// What the lists' types say of their numbers. It is a call for the proofs alone, which do not see it of a list behind a field: nothing is done.
fn numbers_fit(
    text: &[u8],
    ends: &[u32],
    kinds: &[u8],
    addresses: &[u64],
    marks: &[u16],
    places: &[u16],
    lines: &[u32],
)
    ensures { NumbersFit (lists_of text.now ends.now kinds.now addresses.now marks.now places.now lines.now) }
{}

impl<'a> Listing<'a> {
    // The numbers of the lists fit their types.
    pub fn numbers_fit(&self)
        ensures { NumbersFit self.now }
    {
        numbers_fit(
            self.text,
            self.ends,
            self.kinds,
            self.addresses,
            self.marks,
            self.places,
            self.lines,
        );
    }

    // How long each list is.
    pub fn rooms(&self) -> Rooms
        ensures { result ≡ rooms_of self.now }
    {
        Rooms {
            text: self.text.len(),
            ends: self.ends.len(),
            kinds: self.kinds.len(),
            addresses: self.addresses.len(),
            marks: self.marks.len(),
            places: self.places.len(),
            lines: self.lines.len(),
        }
    }
    // The first entries of the lists, as many as the sizes say.
    pub fn cut(&self, sizes: Sizes) -> Listing<'a>
        ensures { result ≡ cut self.now sizes }
    {
        Listing {
            text: part(self.text, 0, sizes.text),
            ends: part(self.ends, 0, sizes.tokens),
            kinds: part(self.kinds, 0, sizes.tokens),
            addresses: part(self.addresses, 0, sizes.lines),
            marks: part(self.marks, 0, sizes.lines),
            places: part(self.places, 0, sizes.lines),
            lines: part(self.lines, 0, sizes.lines),
        }
    }
}
