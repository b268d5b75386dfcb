// The desk for C: one function for each call, over numbers, lent bytes, the lent words and the wheel; `pellacrosta_c` makes C symbols of
// them. Nothing is required of a caller's numbers: a count of words that is too small, a unit above 255, an event that is none are
// answered by a number, and alter nothing. In this order: the records that C is given; what a number of C means; what an answer is in C;
// the calls.
#![tactic(auto)]

ghost use Rattle.std.specs.Prelude.{◌≡◌, MatchResult};
ghost use Rattle.board.specs.Answers.{aborting_says, done, freezing_says, handing_back_says, looking_says, taking_in_says};
ghost use Rattle.board.specs.Board.{the_ticket, the_unit};
ghost use Rattle.board.specs.Block.{cdb_bytes};
ghost use Rattle.board.specs.Calls.{abort, freeze, look, release, reset};
ghost use Rattle.desk.specs.Promise.{Freezes, Fresh, HandsBack, TakesIn};
ghost use Rattle.wheel.specs.Turned.{Sends, Ticks};
ghost use Rattle.pellacrosta.specs.Meaning.{complete_meant, event_meant, sense_meant, unclear_number};
ghost use Rattle.pellacrosta.specs.Forms.{as_aborted, as_first, as_frozen, as_handed, as_reported, as_sent, as_taken, not_found, not_handed, not_sent, not_taken};
ghost use Rattle.pellacrosta.specs.declared.Unclear.TheVariants as unclear;
ghost use Rattle.pellacrosta.specs.Exported.{Alone, Exported, Given, Reports};

use board::{
    Cdb, Event, NoSuchEvent, NoSuchUnit, NotHanded, Refusal, Sending, Sense, Ticket, Unit,
};
use rows::WORDS;
use wheel::Wheel;

// ---- the records that C is given, which has neither `Option` nor `Result`. Each begins with the number of a refusal, or 0; what doesn't
// apply is 0 or false.

// Taking in: the ticket.
#[repr(C)]
#[derive(Clone, Copy)]
pub struct Taken {
    pub refused: u32,
    pub ticket: u32,
}

// Sending: whether a request was sent, its ticket, unit and CDB, and how many units were looked at.
#[repr(C)]
#[derive(Clone, Copy)]
pub struct Sent {
    pub refused: u32,
    pub ticket: u32,
    pub sent: bool,
    pub unit: u8,
    pub looked: u8,
    pub cdb: [u8; 12],
}

// A look at the finished line: whether it has a first request, its ticket, address and callback, and whether the callback is wanted.
#[repr(C)]
#[derive(Clone, Copy)]
pub struct First {
    pub refused: u32,
    pub ticket: u32,
    pub address: u32,
    pub callback: u32,
    pub found: bool,
    pub wanted: bool,
}

// Hand back: the ticket, and what the block was told. (For C, `scsi` is scsi_status and `unsensed` autosense_residual.)
#[repr(C)]
#[derive(Clone, Copy)]
pub struct Handed {
    pub refused: u32,
    pub ticket: u32,
    pub residual: i32,
    pub status: u8,
    pub scsi: u8,
    pub unsensed: u8,
}

// ---- what a number of C means

// Why a report's numbers mean no event: its kind is none (202), its SCSI status is no byte (203), its sense is above 257 (204).
#[derive(Clone, Copy, Debug, PartialEq, Eq)]
pub enum Unclear {
    Kind,
    Status,
    Sense,
}

impl From<NoSuchEvent> for Unclear {
    ghost from_gives = { λ _ why. why ≡ unclear.Kind };

    fn from(_: NoSuchEvent) -> Unclear {
        Unclear::Kind
    }
}

impl From<Unclear> for u32 {
    ghost from_gives = { λ why n. n ≡ unclear_number why };

    fn from(why: Unclear) -> u32 {
        match why {
            Unclear::Kind => 202,
            Unclear::Status => 203,
            Unclear::Sense => 204,
        }
    }
}

// The sense: a byte count to 255; 256 for failed, 257 for none.
fn sense_meant(sense: u32) -> Result<Sense, Unclear>
    ensures { result ≡ sense_meant sense }
{
    match sense {
        0..=255 => Ok(Sense::Bytes(sense as u8)),
        256 => Ok(Sense::Failed),
        257 => Ok(Sense::None),
        _ => Err(Unclear::Sense),
    }
}

// A complete event: its SCSI status is a byte.
fn complete_meant(scsi: u32, sense: u32) -> Result<Event, Unclear>
    ensures { result ≡ complete_meant scsi sense }
{
    if 255 < scsi {
        return Err(Unclear::Status);
    }
    Ok(Event::Complete {
        status: scsi as u8,
        sense: sense_meant(sense)?,
    })
}

// The event of a kind: the kinds are the numbers that the standard has for such an end, 01h for complete.
fn event_meant(kind: u32, scsi: u32, sense: u32) -> Result<Event, Unclear>
    ensures { result ≡ event_meant kind scsi sense }
{
    match kind {
        0x01 => complete_meant(scsi, sense),
        0x02 => Ok(Event::AbortDone),
        _ => Ok(Event::try_from(kind)?),
    }
}

// ---- what an answer is in C. (Functions, and no `From`: each bears the name of its definition, which C's promises cite.)

// Taking in, refused.
fn not_taken(refused: u32) -> Taken
    ensures { result ≡ not_taken refused }
{
    Taken { refused, ticket: 0 }
}

// Taking in.
fn as_taken(a: Result<Ticket, Refusal>) -> Taken
    ensures { result ≡ as_taken a }
{
    match a {
        Ok(ticket) => Taken {
            refused: 0,
            ticket: ticket.0,
        },
        Err(why) => not_taken(u8::from(why).into()),
    }
}

// The 12 CDB bytes, of three little-endian words.
fn bytes_of(cdb: Cdb) -> [u8; 12]
    ensures { result ≡ cdb_bytes cdb }
{
    let [a, b, c, d] = cdb.first.to_le_bytes();
    let [e, f, g, h] = cdb.second.to_le_bytes();
    let [i, j, k, l] = cdb.third.to_le_bytes();
    [a, b, c, d, e, f, g, h, i, j, k, l]
}

// Nothing was sent: a refusal, or 0 and how many units were looked at.
fn not_sent(refused: u32, looked: u8) -> Sent
    ensures { result ≡ not_sent refused looked }
{
    Sent {
        refused,
        ticket: 0,
        sent: false,
        unit: 0,
        looked,
        cdb: [0; 12],
    }
}

// Sending.
fn as_sent(a: Sending) -> Sent
    ensures { result ≡ as_sent a }
{
    match a.sent {
        Some(sent) => Sent {
            refused: 0,
            ticket: sent.ticket.0,
            sent: true,
            unit: sent.unit.0,
            looked: a.looked,
            cdb: bytes_of(sent.cdb),
        },
        None => not_sent(0, a.looked),
    }
}

// An event on a ticket, or an abort: 0, or the refusal's number.
fn as_done<E: Into<u8>>(a: Result<(), E>) -> u32
    ensures { MatchResult a (λ _. result ≡ 0) (λ why. E.converts why result) }
{
    match a {
        Ok(()) => 0,
        Err(why) => u32::from(why.into()),
    }
}

// Freeze, release: 1 if the unit was frozen before, else 0.
fn as_frozen(a: Result<bool, NoSuchUnit>) -> u32
    ensures { result ≡ as_frozen a }
{
    match a {
        Ok(was_frozen) => was_frozen.into(),
        Err(why) => u8::from(why).into(),
    }
}

// No request was found: a refusal, or 0 and the line is empty.
fn not_found(refused: u32) -> First
    ensures { result ≡ not_found refused }
{
    First {
        refused,
        ticket: 0,
        address: 0,
        callback: 0,
        found: false,
        wanted: false,
    }
}

// A look at the finished line.
fn as_first(a: Option<board::First>) -> First
    ensures { result ≡ as_first a }
{
    match a {
        Some(first) => First {
            refused: 0,
            ticket: first.ticket.0,
            address: first.address,
            callback: first.callback,
            found: true,
            wanted: first.wanted,
        },
        None => not_found(0),
    }
}

// A hand-back that was refused.
fn not_handed(refused: u32) -> Handed
    ensures { result ≡ not_handed refused }
{
    Handed {
        refused,
        ticket: 0,
        residual: 0,
        status: 0,
        scsi: 0,
        unsensed: 0,
    }
}

// Hand back.
fn as_handed(a: Result<board::Handed, NotHanded>) -> Handed
    ensures { result ≡ as_handed a }
{
    match a {
        Ok(board::Handed { ticket, told }) => Handed {
            refused: 0,
            ticket: ticket.0,
            residual: told.residual,
            status: told.status,
            scsi: told.scsi,
            unsensed: told.unsensed,
        },
        Err(why) => not_handed(u8::from(why).into()),
    }
}

// ---- the calls, in document 01's order. Each looks at the count of words first, which C gives beside them: a slice can't be made a
// reference to 838 words. (Each is a symbol of C's, so those that differ in a name alone stay apart.)

// Fewer words are lent than a desk has: the library's own refusal.
const TOO_FEW_WORDS: u32 = 201;

// A fresh board, from any words.
pub fn pella_fresh(mem: &mut [u32; WORDS], words: usize) -> u32
    ensures { Exported words ((result ≡ 201) × (mem.new ≡ mem.old)) ((result ≡ 0) × Fresh mem.new) }
{
    if words < WORDS {
        return TOO_FEW_WORDS;
    }
    desk::fresh(mem);
    0
}

// Taking a request in. `last` is the last ticket given.
pub fn pella_take_in(
    mem: &mut [u32; WORDS],
    words: usize,
    block: &mut [u8],
    last: &mut u32,
) -> Taken
    ensures { Exported words
        ((result ≡ not_taken 201) × (mem.new ≡ mem.old) × (block.new ≡ block.old) × (last.new ≡ last.old))
        (Given as_taken result (λ a. TakesIn mem.old mem.new block.old block.new last.old last.new (taking_in_says a))) }
{
    if words < WORDS {
        return not_taken(TOO_FEW_WORDS);
    }
    as_taken(desk::take_in(mem, block, last))
}

// Sending.
pub fn pella_send(mem: &mut [u32; WORDS], words: usize, wheel: &mut Wheel) -> Sent
    ensures { Exported words
        ((result ≡ not_sent 201 0) × (mem.new ≡ mem.old) × (wheel.new ≡ wheel.old))
        (Given as_sent result (Sends mem.old mem.new wheel.old wheel.new)) }
{
    if words < WORDS {
        return not_sent(TOO_FEW_WORDS, 0);
    }
    as_sent(wheel::send(mem, wheel))
}

// An event on a ticket, with the bytes moved.
pub fn pella_report(
    mem: &mut [u32; WORDS],
    words: usize,
    ticket: u32,
    kind: u32,
    scsi: u32,
    sense: u32,
    moved: u32,
) -> u32
    ensures { Exported words ((result ≡ 201) × (mem.new ≡ mem.old))
        (Reports mem.old mem.new (the_ticket ticket) (event_meant kind scsi sense) moved result) }
{
    if words < WORDS {
        return TOO_FEW_WORDS;
    }
    match event_meant(kind, scsi, sense) {
        Ok(what) => as_done(desk::report(mem, Ticket(ticket), what, moved)),
        Err(why) => why.into(),
    }
}

// Abort, by ticket.
pub fn pella_abort(mem: &mut [u32; WORDS], words: usize, ticket: u32) -> u32
    ensures { Exported words ((result ≡ 201) × (mem.new ≡ mem.old))
        (Given as_aborted result (λ a. Alone mem.old mem.new (abort (the_ticket ticket)) (aborting_says a))) }
{
    if words < WORDS {
        return TOO_FEW_WORDS;
    }
    as_done(desk::abort(mem, Ticket(ticket)))
}

// Freeze a unit.
pub fn pella_freeze(mem: &mut [u32; WORDS], words: usize, unit: u32) -> u32
    ensures { Exported words ((result ≡ 201) × (mem.new ≡ mem.old))
        (Given as_frozen result (λ a. Freezes mem.old mem.new (the_unit unit) (freeze (the_unit unit)) (freezing_says a))) }
{
    if words < WORDS {
        return TOO_FEW_WORDS;
    }
    as_frozen(desk::freeze(mem, Unit::from(unit)))
}

// Release a unit.
pub fn pella_release(mem: &mut [u32; WORDS], words: usize, unit: u32) -> u32
    ensures { Exported words ((result ≡ 201) × (mem.new ≡ mem.old))
        (Given as_frozen result (λ a. Freezes mem.old mem.new (the_unit unit) (release (the_unit unit)) (freezing_says a))) }
{
    if words < WORDS {
        return TOO_FEW_WORDS;
    }
    as_frozen(desk::release(mem, Unit::from(unit)))
}

// Tick.
pub fn pella_tick(mem: &mut [u32; WORDS], words: usize, wheel: &mut Wheel) -> u32
    ensures { Exported words
        ((result ≡ 201) × (mem.new ≡ mem.old) × (wheel.new ≡ wheel.old))
        ((result ≡ 0) × Ticks mem.old mem.new wheel.old wheel.new wheel.new.clock) }
{
    if words < WORDS {
        return TOO_FEW_WORDS;
    }
    wheel::tick(mem, wheel);
    0
}

// Bus reset.
pub fn pella_reset(mem: &mut [u32; WORDS], words: usize) -> u32
    ensures { Exported words ((result ≡ 201) × (mem.new ≡ mem.old)) ((result ≡ 0) × Alone mem.old mem.new reset done) }
{
    if words < WORDS {
        return TOO_FEW_WORDS;
    }
    desk::reset(mem);
    0
}

// A look at the finished line.
pub fn pella_look(mem: &[u32; WORDS], words: usize) -> First
    ensures { Exported words (result ≡ not_found 201) (Given as_first result (λ a. Alone mem.now mem.now look (looking_says a))) }
{
    if words < WORDS {
        return not_found(TOO_FEW_WORDS);
    }
    as_first(desk::look(mem))
}

// Hand back, with a lent block.
pub fn pella_hand_back(mem: &mut [u32; WORDS], words: usize, block: &mut [u8]) -> Handed
    ensures { Exported words
        ((result ≡ not_handed 201) × (mem.new ≡ mem.old) × (block.new ≡ block.old))
        (Given as_handed result (λ a. HandsBack mem.old mem.new block.old block.new (handing_back_says a))) }
{
    if words < WORDS {
        return not_handed(TOO_FEW_WORDS);
    }
    as_handed(desk::hand_back(mem, block))
}
