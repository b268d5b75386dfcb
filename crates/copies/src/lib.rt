// The program's own copies of the blocks of live requests: 32 slots in fixed memory. A slot has a number in the book, a ticket or 0 while
// it is free, the length of its copy there, and room for 200 bytes in the store.
#![tactic(auto)]

ghost use Rattle.std.specs.Prelude.{◌≡◌, ◌<◌, ◌≤◌, length, replicate, IfSome};
ghost use Rattle.copies.specs.Slots.{slot_of, lies, pasted, noted, forgotten, store_with};

use board::Ticket;
use std::ops::Range;

// As many slots as there are places for live requests.
pub const SLOTS: usize = 32;

// Words of the book: the slots' numbers at 0, the lengths of their copies at 32.
pub const BOOK: usize = 64;

// Bytes that a slot has room for. A line of 400 bytes holds no block of more than 199.
const ROOM: usize = 200;

// Bytes of the store: slot i has its copy at 200 * i.
pub const STORE: usize = 6400;

// All of src to dst, from `at` on; where it has no room there, nothing. (A place in a slice, and no length beside it: `copy_from_slice` with
// its test.)
#[tactic(auto, using(crate::proofs::Slotted::pasted_fits, crate::proofs::Slotted::pasted_out, crate::proofs::Slotted::put_back))]
pub fn copy(dst: &mut [u8], at: usize, src: &[u8])
    ensures { dst.new ≡ pasted dst.old at src.now }
{
    if at <= dst.len() && src.len() <= dst.len() - at {
        dst[at..at + src.len()].copy_from_slice(src);
    }
}

// (A struct for each slot is no plainer: a search reads the numbers alone, side by side, and the definitions read words. 0 is no ticket, and
// stands in a free slot.)
#[derive(Clone, Copy)]
pub struct Copies {
    pub book: [u32; BOOK],
    pub store: [u8; STORE],
}

impl Copies {
    // No copy is kept.
    pub fn new() -> Self
        ensures { (result.book ≡ replicate 64 0) × (result.store ≡ replicate 6400 0) }
    {
        Copies {
            book: [0; BOOK],
            store: [0; STORE],
        }
    }

    // The first slot with this number.
    #[tactic(auto, unfolding(crate::specs::Slots::slot_of))]
    fn slot_of(&self, number: u32) -> Option<usize>
        ensures value { result ≡ slot_of self.now.book number }
        ensures bound { IfSome result (λ i. i < 32) }
    {
        self.book[..SLOTS].iter().position(|n| *n == number)
    }

    // A copy of the block, under its ticket, in the first free slot. (With no free slot, or a block of more than 200 bytes, nothing is kept.)
    #[tactic(auto, unfolding(crate::specs::Slots::noted, crate::specs::Slots::store_with, crate::specs::Slots::slot_for))]
    pub fn keep(&mut self, ticket: Ticket, block: &[u8])
        ensures { (self.new.book ≡ noted self.old.book ticket.0 (length block.now)) × (self.new.store ≡ store_with self.old.book self.old.store block.now) }
    {
        if block.len() <= ROOM {
            if let Some(i) = self.slot_of(0) {
                copy(&mut self.store, ROOM * i, block);
                self.book[i] = ticket.0;
                self.book[SLOTS + i] = block.len() as u32;
            }
        }
    }

    // Where the copy of the ticket's block lies in the store.
    #[tactic(auto, unfolding(crate::specs::Slots::lies, crate::specs::Slots::lies_in))]
    pub fn find(&self, ticket: Ticket) -> Option<Range<usize>>
        ensures value { result ≡ lies self.now.book ticket.0 }
        ensures bounds { IfSome result (λ r. (r.start ≤ r.end) × (r.end ≤ 6400)) }
    {
        if ticket.0 == 0 {
            return None;
        }
        let i = self.slot_of(ticket.0)?;
        let n = self.book[SLOTS + i] as usize;
        if n <= ROOM {
            Some(ROOM * i..ROOM * i + n)
        } else {
            None
        }
    }

    // The slot of the ticket is free again.
    #[tactic(auto, unfolding(crate::specs::Slots::forgotten))]
    pub fn forget(&mut self, ticket: Ticket)
        ensures { (self.new.book ≡ forgotten self.old.book ticket.0) × (self.new.store ≡ self.old.store) }
    {
        if let Some(i) = self.slot_of(ticket.0) {
            self.book[i] = 0;
        }
    }
}
