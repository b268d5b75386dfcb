// Places linked in rows, in lent words. A place is in one row at a time, or in none while it is moved from one to another. What
// stands at a place, and what a row means, is not known here.
#![tactic(auto)]

ghost use Rattle.std.specs.Prelude.{◌≡◌, length};
ghost use Rattle.rows.specs.Words.{next, head, as_place, popped, put_last, put_first, cut_after, cut_out};
ghost use Rattle.rows.specs.Rows.{row_of, Begun};
ghost use Rattle.rows.specs.Searches.{places_left, spot_of, smallest_ticket};

use board::Ticket;
use std::marker::Model;

// Places for live requests.
pub const PLACES: usize = 32;

// Rows: see desk for what each is.
pub const ROWS: usize = 67;

// Words of the memory. By place: the next place of its row at 0, the row that holds it at 32. By row: its first place at 64, its last
// at 131. By place: its ticket at 198, by which a row is searched. The other words are not this crate's. (They are lent by C. A link of 32
// or more leads nowhere, and a place that no row holds has 255 for its row; links are compared and moved as the words they are.)
pub const WORDS: usize = 838;

// A place, 0 to 31: never a ticket, never a unit. To a clause it is its number.
#[derive(Clone, Copy)]
pub struct Place(pub usize);

impl Model for Place {
    ghost use Rattle.std.specs.Prelude.{ℕ, ◌<◌};
    ghost use Rattle.rows.specs.declared.TheConstants.{PLACES};

    ghost Value = { ℕ };

    ghost view = { λ p. p.0 };

    ghost invariant = { λ p. p.0 < PLACES };

    ghost inverse = { λ n. record { 0 = n } };
}

// A row, 0 to 66. To a clause it is its number. (Alike but for the bound: never to be taken for a place.)
#[derive(Clone, Copy)]
pub struct Row(pub usize);

impl Model for Row {
    ghost use Rattle.std.specs.Prelude.{ℕ, ◌<◌};
    ghost use Rattle.rows.specs.declared.TheConstants.{ROWS};

    ghost Value = { ℕ };

    ghost view = { λ k. k.0 };

    ghost invariant = { λ k. k.0 < ROWS };

    ghost inverse = { λ n. record { 0 = n } };
}

// What a search along a row finds: a place, and the one before it where it isn't the first.
#[derive(Clone, Copy)]
pub struct Spot {
    pub before: Option<Place>,
    pub place: Place,
}

// The place that a word names; from 32 on it names none. (No TryFrom: there is nothing to tell of a word that names none.)
fn place_of(word: u32) -> Option<Place>
    ensures { result ≡ as_place word }
{
    let n = word as usize;
    if n < PLACES { Some(Place(n)) } else { None }
}

// The first place of a row.
pub fn first_of(mem: &[u32; WORDS], row: Row) -> Option<Place>
    ensures { result ≡ as_place (head mem.now row) }
{
    place_of(mem[64 + row.0])
}

// The place after this one in its row.
pub fn next_of(mem: &[u32; WORDS], place: Place) -> Option<Place>
    ensures { result ≡ as_place (next mem.now place) }
{
    place_of(mem[place.0])
}

// The first place of a row is taken out.
pub fn take_first(mem: &mut [u32; WORDS], row: Row, place: Place)
    ensures { mem.new ≡ popped mem.old row place }
{
    let k = row.0;
    let p = place.0;
    let n = mem[p];
    mem[64 + k] = n;
    mem[32 + p] = 255;
}

// A place becomes the last of a row.
#[tactic(auto, unfolding(crate::specs::Words::put_last))]
pub fn put_last(mem: &mut [u32; WORDS], row: Row, place: Place)
    ensures { mem.new ≡ put_last mem.old row place }
{
    let k = row.0;
    let p = place.0;
    if mem[64 + k] < 32 {
        let t = mem[131 + k] as usize % 32;
        mem[t] = p as u32;
    } else {
        mem[64 + k] = p as u32;
    }
    mem[131 + k] = p as u32;
    mem[p] = 32;
    mem[32 + p] = k as u32;
}

// A place becomes the first of a row.
#[tactic(auto, unfolding(crate::specs::Words::put_first))]
pub fn put_first(mem: &mut [u32; WORDS], row: Row, place: Place)
    ensures { mem.new ≡ put_first mem.old row place }
{
    let k = row.0;
    let p = place.0;
    let h = mem[64 + k];
    if 32 <= h {
        mem[131 + k] = p as u32;
    }
    mem[64 + k] = p as u32;
    mem[p] = h;
    mem[32 + p] = k as u32;
}

// A place is taken out that follows another one in a row.
#[tactic(auto, unfolding(crate::specs::Words::cut_after))]
fn take_after(mem: &mut [u32; WORDS], row: Row, before: Place, place: Place)
    ensures { mem.new ≡ cut_after mem.old row before place }
{
    let k = row.0;
    let q = before.0;
    let p = place.0;
    let n = mem[p];
    if mem[131 + k] as usize == p {
        mem[131 + k] = q as u32;
    }
    mem[q] = n;
    mem[32 + p] = 255;
}

// A place of a row is taken out, by the one before it; None: it is the first.
pub fn take_out(mem: &mut [u32; WORDS], row: Row, before: Option<Place>, place: Place)
    ensures { mem.new ≡ cut_out mem.old row before place }
{
    match before {
        Some(q) => take_after(mem, row, q, place),
        None => take_first(mem, row, place),
    }
}

// The places of a row, one after the other, along the links.
#[derive(Drop)]
pub struct Walk<'a> {
    mem: &'a [u32; WORDS],
    at: usize,
    left: usize,
}

impl<'a> Iterator for Walk<'a> {
    type Item = Place;

    ghost use Rattle.std.specs.Iterator.{YieldsFirst, item_count};
    ghost use Rattle.rows.specs.Searches.{places_left};

    ghost next_gives = { YieldsFirst places_left };

    ghost remaining = { item_count places_left };

    #[tactic(auto, using(crate::proofs::Walks::walk_none, crate::proofs::Walks::walk_end, crate::proofs::Walks::walk_more), unfolding(crate::specs::Searches::places_left))]
    fn next(&mut self) -> Option<Place> {
        if self.left == 0 || self.at >= PLACES {
            return None;
        }
        let place = Place(self.at);
        self.at = self.mem[self.at] as usize;
        self.left -= 1;
        Some(place)
    }
}

// Along a row, at most as many places as there are, whatever the links say.
#[tactic(auto, unfolding(crate::specs::Searches::places_left, crate::specs::Rows::row_of))]
pub fn places_of<'a>(mem: &'a [u32; WORDS], row: Row) -> Walk<'a>
    ensures { places_left result ≡ row_of mem.now row }
{
    Walk {
        mem,
        at: mem[64 + row.0] as usize,
        left: PLACES,
    }
}

// Along a row: the first place with this ticket, and the one before it.
#[tactic(auto, using(crate::proofs::Walks::seek_here, crate::proofs::Walks::seek_on), unfolding(crate::specs::Searches::seek_along))]
pub fn seek(mem: &[u32; WORDS], row: Row, ticket: Ticket) -> Option<Spot>
    ensures { result ≡ spot_of mem.now row ticket.0 }
{
    let mut before = None;
    for place in places_of(mem, row) {
        if mem[198 + place.0] == ticket.0 {
            return Some(Spot { before, place });
        }
        before = Some(place);
    }
    None
}

// The smallest ticket of a row.
pub fn smallest(mem: &[u32; WORDS], row: Row) -> Option<Ticket>
    ensures { result ≡ smallest_ticket mem.now row }
{
    places_of(mem, row)
        .map(|place| mem[198 + place.0])
        .min()
        .map(Ticket)
}

// How many places a row has.
#[tactic(auto, using(crate::proofs::Walks::row_of_short))]
pub fn length_of(mem: &[u32; WORDS], row: Row) -> usize
    ensures { result ≡ length (row_of mem.now row) }
{
    places_of(mem, row).count()
}

// Every place is in row 0, and the other rows are empty, whatever the words held.
#[tactic(auto, using(crate::proofs::Fresh::begun_none, crate::proofs::Fresh::begun_more))]
pub fn begin(mem: &mut [u32; WORDS])
    ensures { Begun mem.new }
{
    *mem = [255; WORDS];
    for p in 0..PLACES {
        put_last(mem, Row(0), Place(p));
    }
}
