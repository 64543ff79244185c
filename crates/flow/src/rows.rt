// The rows of a record: eight numbers a block, two an edge, one an instruction, stored in lent lists.
ghost use Rattle.std.specs.Prelude.{◌≡◌, not, [], ◌∷◌, ◌+◌, ◌-◌, ◌*◌, ◌<◌, eqb, leb};
ghost use Rattle.lists.specs.Choice.{pick};
ghost use Rattle.lists.specs.Put.{put};
ghost use Rattle.record.specs.Blocks.{starts_rise};
ghost use Rattle.record.specs.Body.{operand_number};
ghost use Rattle.record.specs.Layout.{starts_of};
ghost use Rattle.flow.specs.Silent.{is_silent_itself, ending_of};
ghost use Rattle.flow.specs.Classes.{class_table};
ghost use Rattle.flow.specs.Rows.{place_found, place_of, block_rows, edge_rows, shown_rows};
ghost use Rattle.flow.specs.Counted.{Counted, BlockHas, row_ending};

use crate::silent::{Classes, class_table, ending_of, is_silent_itself, silent_class};
use lists::parts::from;
use lists::stores::store;
use record::blocks::{
    Address, Place, edge_kind_at, edges_in, instructions_in, label_mark, starts_rise, target_at,
};
use record::body::{body_at, mnemonic, op_number, skip_mark};
use record::header::Header;
use record::layout::{bodies_at, edge_kinds_at, marks_at, targets_at};
use record::search::{first_of, search};
use x86::table::Isa;

// The place that a search found, or 65535.
fn place_found(found: Option<u16>) -> Place
    ensures { result.0 ≡ place_found found }
{
    Place(found.unwrap_or(65535))
}

// Whether a record's block starts rise.
fn rises_in(rec: &[u8], h: Header) -> bool
    ensures { result ≡ starts_rise (starts_of h rec.now) h.blocks }
{
    starts_rise(from(rec, 24), h.blocks)
}

// The place of the first block that starts at an address; `rises` tells whether it can be found by halving.
#[tactic(auto, unfolding(crate::specs::Rows::place_of))]
pub fn place_of(rec: &[u8], h: Header, rises: bool, va: Address) -> Place
    requires { rises ≡ starts_rise (starts_of h rec.now) h.blocks }
    ensures { result.0 ≡ place_of h rec.now va.0 }
{
    let starts = from(rec, 24);
    if rises {
        return place_found(search(starts, h.blocks, va.0));
    }
    place_found(first_of(starts, h.blocks, va.0))
}

// A record with its header, and whether its block starts rise: asked once for all the places that are found in it.
#[derive(Clone, Copy)]
pub struct Places<'a> {
    pub rec: &'a [u8],
    pub h: Header,
    pub rises: bool,
    pub ghost told: { rises ≡ starts_rise (starts_of h rec.now) h.blocks },
}

impl<'a> Places<'a> {
    // The place of the first block that starts at an address: by halving, where the starts rise.
    pub fn place_of(self, va: Address) -> Place
        ensures { result.0 ≡ place_of self.entry.h self.entry.rec.now va.0 }
    {
        place_of(self.rec, self.h, self.rises, va)
    }

    // The place of a closing branch's target.
    fn branch_of(self, last: &[u8], ending: u8) -> Place
        ensures { result.0 ≡ pick (leb 2 ending) (place_of self.entry.h self.entry.rec.now (operand_number last.now 0)) 65535 }
    {
        if 2 <= ending {
            return self.place_of(Address(op_number(last, 0)));
        }
        Place(65535)
    }
}

#[tactic(auto, using(crate::proofs::Storing::put_two))]
fn put_two(out: &mut [u16], at: usize, a: u16, b: u16)
    requires { at < 1_000_000 }
    ensures { out.new ≡ put at (a ∷ b ∷ []) out.old }
{
    store(out, at, a);
    store(out, at + 1, b);
}

#[tactic(auto, using(crate::proofs::Storing::put_four))]
fn put_four(out: &mut [u16], at: usize, a: u16, b: u16, c: u16, d: u16)
    requires { at < 900_000 }
    ensures { out.new ≡ put at (a ∷ b ∷ c ∷ d ∷ []) out.old }
{
    put_two(out, at, a, b);
    put_two(out, at + 2, c, d);
}

// The last of n instructions from the first on.
fn last_at(first: u16, n: u16) -> u16
    requires { first + n < 65536 }
    ensures { result ≡ first + n - 1 }
{
    (first + n).saturating_sub(1)
}

// How a block of n instructions ends, by its last one.
fn ending_in(last: &[u8], n: u16) -> u8
    ensures { result ≡ pick (eqb n 0) 0 (ending_of last.now) }
{
    if n == 0 {
        return 0;
    }
    ending_of(last)
}

// The last four numbers of block k's row; its n instructions begin at the first.
fn put_ending(places: Places<'_>, k: u16, first: u16, n: u16, out: &mut [u16])
    requires { BlockHas places.h places.rec.now k first n }
    ensures { out.new ≡ put (8 * k + 4) (row_ending places.entry.h places.entry.rec.now k) out.old }
{
    let rec = places.rec;
    let h = places.h;
    let label = label_mark(from(rec, marks_at(h)), Place(k));
    let last = body_at(from(rec, bodies_at(h)), last_at(first, n));
    let ending = ending_in(last, n);
    let branch = places.branch_of(last, ending);
    put_four(
        out,
        8 * usize::from(k) + 4,
        label as u16,
        ending as u16,
        branch.0,
        0,
    );
}

#[tactic(auto, using(crate::proofs::Storing::left_done), unfolding(record::specs::Blocks::first_instruction, record::specs::Blocks::first_edge, crate::specs::Rows::block_row, crate::specs::Rows::block_rows))]
pub fn block_rows(rec: &[u8], h: Header, out: &mut [u16])
    requires { Counted h rec.now }
    ensures { out.new ≡ put 0 (block_rows h rec.now) out.old }
{
    let places = Places {
        rec,
        h,
        rises: rises_in(rec, h),
    };
    let marks = from(rec, marks_at(h));
    let mut first: u16 = 0;
    let mut edge: u16 = 0;
    for k in 0..h.blocks {
        let n = instructions_in(marks, Place(k));
        let m = edges_in(marks, Place(k)) as u16;
        put_four(out, 8 * usize::from(k), first, n, edge, m);
        put_ending(places, k, first, n, out);
        first += n;
        edge += m;
    }
}

#[tactic(auto, using(crate::proofs::Storing::left_done), unfolding(crate::specs::Rows::edge_row, crate::specs::Rows::edge_rows))]
pub fn edge_rows(rec: &[u8], h: Header, out: &mut [u16])
    ensures { out.new ≡ put 0 (edge_rows h rec.now) out.old }
{
    let places = Places {
        rec,
        h,
        rises: rises_in(rec, h),
    };
    let targets = from(rec, targets_at(h));
    let kinds = from(rec, edge_kinds_at(h));
    for e in 0..h.edges {
        let to = places.place_of(target_at(targets, e));
        put_two(out, 2 * usize::from(e), to.0, edge_kind_at(kinds, e) as u16);
    }
}

// An instruction is not silent by itself: most are told by their mnemonic.
#[tactic(auto, using(crate::proofs::Classes::class_silent, crate::proofs::Classes::class_shown), unfolding(crate::specs::Silent::is_silent_itself))]
fn is_shown_itself(isa: Isa<'_>, classes: Classes<'_>, bits: u16, frame: u16, body: &[u8]) -> bool
    ensures { result ≡ not (is_silent_itself bits frame body.now) }
{
    if skip_mark(body) == 1 {
        return false;
    }
    match silent_class(classes, mnemonic(body)) {
        0 => true,
        1 => false,
        _ => !is_silent_itself(isa, bits, frame, body),
    }
}

#[tactic(auto, using(crate::proofs::Storing::left_done), unfolding(crate::specs::Rows::shown_row, crate::specs::Rows::shown_rows))]
pub fn shown_rows(isa: Isa<'_>, rec: &[u8], h: Header, out: &mut [u8])
    ensures { out.new ≡ put 0 (shown_rows h rec.now) out.old }
{
    let table = class_table();
    let classes = Classes { bytes: &table };
    let bodies = from(rec, bodies_at(h));
    for i in 0..h.instructions {
        let shown = is_shown_itself(isa, classes, h.bits, h.frame, body_at(bodies, i));
        store(out, usize::from(i), u8::from(shown));
    }
}
