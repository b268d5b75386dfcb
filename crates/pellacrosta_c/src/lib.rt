// The library's calls as C symbols: each calls the function of `pellacrosta` that bears its name, and promises what that promises. (C links
// to eleven names, so those that differ in a name alone stay apart.)
#![tactic(auto)]

ghost use Rattle.std.specs.Prelude.{◌≡◌};
ghost use Rattle.board.specs.Answers.{aborting_says, done, freezing_says, handing_back_says, looking_says, taking_in_says};
ghost use Rattle.board.specs.Board.{the_ticket, the_unit};
ghost use Rattle.board.specs.Calls.{abort, freeze, look, release, reset};
ghost use Rattle.desk.specs.Promise.{Freezes, Fresh, HandsBack, TakesIn};
ghost use Rattle.wheel.specs.Turned.{Sends, Ticks};
ghost use Rattle.pellacrosta.specs.Meaning.{event_meant};
ghost use Rattle.pellacrosta.specs.Forms.{as_aborted, as_first, as_frozen, as_handed, as_sent, as_taken, not_found, not_handed, not_sent, not_taken};
ghost use Rattle.pellacrosta.specs.Exported.{Alone, Exported, Given, Reports};

use pellacrosta::{First, Handed, Sent, Taken};
use rows::WORDS;
use wheel::Wheel;

// A fresh board, from any words.
#[unsafe(no_mangle)]
pub extern "C" fn pella_fresh(mem: &mut [u32; WORDS], words: usize) -> u32
    ensures { Exported words ((result ≡ 201) × (mem.new ≡ mem.old)) ((result ≡ 0) × Fresh mem.new) }
{
    pellacrosta::pella_fresh(mem, words)
}

// Taking a request in. `last` is the last ticket given.
#[unsafe(no_mangle)]
pub extern "C" fn pella_take_in(
    mem: &mut [u32; WORDS],
    words: usize,
    block: &mut [u8],
    last: &mut u32,
) -> Taken
    ensures { Exported words
        ((result ≡ not_taken 201) × (mem.new ≡ mem.old) × (block.new ≡ block.old) × (last.new ≡ last.old))
        (Given as_taken result (λ a. TakesIn mem.old mem.new block.old block.new last.old last.new (taking_in_says a))) }
{
    pellacrosta::pella_take_in(mem, words, block, last)
}

// Sending.
#[unsafe(no_mangle)]
pub extern "C" fn pella_send(mem: &mut [u32; WORDS], words: usize, wheel: &mut Wheel) -> Sent
    ensures { Exported words
        ((result ≡ not_sent 201 0) × (mem.new ≡ mem.old) × (wheel.new ≡ wheel.old))
        (Given as_sent result (Sends mem.old mem.new wheel.old wheel.new)) }
{
    pellacrosta::pella_send(mem, words, wheel)
}

// An event on a ticket, with the bytes moved.
#[unsafe(no_mangle)]
pub extern "C" fn pella_report(
    mem: &mut [u32; WORDS],
    words: usize,
    ticket: u32,
    kind: u32,
    scsi: u32,
    sense: u32,
    moved: u32,
) -> u32
    ensures { Exported words ((result ≡ 201) × (mem.new ≡ mem.old))
        (Reports mem.old mem.new (the_ticket ticket) (event_meant kind scsi sense) moved result) }
{
    pellacrosta::pella_report(mem, words, ticket, kind, scsi, sense, moved)
}

// Abort, by ticket.
#[unsafe(no_mangle)]
pub extern "C" fn pella_abort(mem: &mut [u32; WORDS], words: usize, ticket: u32) -> u32
    ensures { Exported words ((result ≡ 201) × (mem.new ≡ mem.old))
        (Given as_aborted result (λ a. Alone mem.old mem.new (abort (the_ticket ticket)) (aborting_says a))) }
{
    pellacrosta::pella_abort(mem, words, ticket)
}

// Freeze a unit.
#[unsafe(no_mangle)]
pub extern "C" fn pella_freeze(mem: &mut [u32; WORDS], words: usize, unit: u32) -> u32
    ensures { Exported words ((result ≡ 201) × (mem.new ≡ mem.old))
        (Given as_frozen result (λ a. Freezes mem.old mem.new (the_unit unit) (freeze (the_unit unit)) (freezing_says a))) }
{
    pellacrosta::pella_freeze(mem, words, unit)
}

// Release a unit.
#[unsafe(no_mangle)]
pub extern "C" fn pella_release(mem: &mut [u32; WORDS], words: usize, unit: u32) -> u32
    ensures { Exported words ((result ≡ 201) × (mem.new ≡ mem.old))
        (Given as_frozen result (λ a. Freezes mem.old mem.new (the_unit unit) (release (the_unit unit)) (freezing_says a))) }
{
    pellacrosta::pella_release(mem, words, unit)
}

// Tick.
#[unsafe(no_mangle)]
pub extern "C" fn pella_tick(mem: &mut [u32; WORDS], words: usize, wheel: &mut Wheel) -> u32
    ensures { Exported words
        ((result ≡ 201) × (mem.new ≡ mem.old) × (wheel.new ≡ wheel.old))
        ((result ≡ 0) × Ticks mem.old mem.new wheel.old wheel.new wheel.new.clock) }
{
    pellacrosta::pella_tick(mem, words, wheel)
}

// Bus reset.
#[unsafe(no_mangle)]
pub extern "C" fn pella_reset(mem: &mut [u32; WORDS], words: usize) -> u32
    ensures { Exported words ((result ≡ 201) × (mem.new ≡ mem.old)) ((result ≡ 0) × Alone mem.old mem.new reset done) }
{
    pellacrosta::pella_reset(mem, words)
}

// A look at the finished line.
#[unsafe(no_mangle)]
pub extern "C" fn pella_look(mem: &[u32; WORDS], words: usize) -> First
    ensures { Exported words (result ≡ not_found 201) (Given as_first result (λ a. Alone mem.now mem.now look (looking_says a))) }
{
    pellacrosta::pella_look(mem, words)
}

// Hand back, with a lent block.
#[unsafe(no_mangle)]
pub extern "C" fn pella_hand_back(mem: &mut [u32; WORDS], words: usize, block: &mut [u8]) -> Handed
    ensures { Exported words
        ((result ≡ not_handed 201) × (mem.new ≡ mem.old) × (block.new ≡ block.old))
        (Given as_handed result (λ a. HandsBack mem.old mem.new block.old block.new (handing_back_says a))) }
{
    pellacrosta::pella_hand_back(mem, words, block)
}
