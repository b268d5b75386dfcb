// The desk: the board of document 01 in lent words, altered in place. Each public call promises, for every memory, that it ends and that
// a refusal leaves every word as it was; and for every valid memory exactly `step`.
#![tactic(auto)]

ghost use Rattle.std.specs.Prelude.{◌≡◌, ℕ, ◌+◌, ◌<◌, [], Some, None};
ghost use Rattle.board.specs.Board.{the_unit};
ghost use Rattle.board.specs.Answers.{aborting_says, done, freezing_says, handing_back_says, looking_says, reporting_says, sending_says, taking_in_says, time};
ghost use Rattle.board.specs.Block.{with_status};
ghost use Rattle.board.specs.Calls.{abort, event, freeze, release, look, reset, send, tick};
ghost use Rattle.board.specs.Sending.{rotation};
ghost use Rattle.rows.specs.Words.{head};
ghost use Rattle.rows.specs.Rows.{row_of};
ghost use Rattle.desk.specs.Words.{bit, known, written, freeze_at, FreezeSet, has_active, can_send, launched, closed, ToldFits, finished_words, frozen_if, unit_at};
ghost use Rattle.desk.specs.Aborts.{WaitsOn, aborted_told, aborted_words, asked_words};
ghost use Rattle.desk.specs.TakingIn.{held_to, entered, status_said};
ghost use Rattle.desk.specs.Events.{closing_of, Reported};
ghost use Rattle.desk.specs.View.{request_at, active_at, finished_at, Rest, the_rest};
ghost use Rattle.desk.specs.Begins.{cleared};
ghost use Rattle.desk.specs.Ticking.{marked, all_marked};
ghost use Rattle.desk.specs.Resets.{reset_told, reset_words, smallest_spot};
ghost use Rattle.desk.specs.Promise.{Does, Freezes, HandsBack, Sends, TakesIn, Ticks, Fresh};

use block::Passed;
use board::{
    Active, Cdb, Event, Finished, First, Found, Handed, NoSuchUnit, NotHanded, Refusal, Request,
    Sending, Sent, Ticket, Told, UnableToAbort, Unit, Unreported,
};
use ends::Closed;
use rows::{PLACES, Place, Row, Spot, WORDS};
use std::marker::Model;

const UNITS: usize = 64;

// ---- rows and units

// The free places.
const FREE: Row = Row(0);

// The finished line.
const FINISHED: Row = Row(1);

// The active requests, in the order of sending.
const ACTIVE: Row = Row(2);

// A unit that there is, 0 to 63 (a Unit may be any byte). To a clause it is its number. (Alike but for the bound: never to be taken for a
// row or a place.)
#[derive(Clone, Copy)]
struct KnownUnit(usize);

impl Model for KnownUnit {
    ghost use Rattle.std.specs.Prelude.{ℕ, ◌<◌};
    ghost use Rattle.desk.specs.declared.TheConstants.{UNITS};

    ghost Value = { ℕ };

    ghost view = { λ u. u.0 };

    ghost invariant = { λ u. u.0 < UNITS };

    ghost inverse = { λ n. record { 0 = n } };
}

// The unit of this number, where there is one. (It bears the name of its definition, as private functions here do; so no TryFrom.)
fn known(unit: Unit) -> Result<KnownUnit, NoSuchUnit>
    ensures { result ≡ known unit }
{
    let u = usize::from(unit.0);
    if u < UNITS {
        Ok(KnownUnit(u))
    } else {
        Err(NoSuchUnit)
    }
}

// The row of what waits on a unit, in order.
fn waiting_on(unit: KnownUnit) -> Row
    ensures { result ≡ 3 + unit }
{
    Row(3 + unit.0)
}

// ---- reading

// The request at a place.
fn request_at(mem: &[u32; WORDS], place: Place) -> Request
    ensures { result ≡ request_at mem.now place }
{
    let i = place.0;
    let b = 326 + 16 * i;
    Request {
        ticket: Ticket(mem[198 + i]),
        unit: Unit((mem[b + 0] % 64) as u8),
        address: mem[230 + i],
        callback: mem[b + 1],
        wanted: mem[b + 2] != 0,
        length: mem[b + 3] % 0x1000000,
        sense: (mem[b + 4] % 256) as u8,
        autosense: mem[b + 5] != 0,
        timeout: mem[b + 6],
        cdb: Cdb {
            first: mem[b + 7],
            second: mem[b + 8],
            third: mem[b + 9],
        },
    }
}

// The unit of the request at a place.
fn unit_at(mem: &[u32; WORDS], place: Place) -> KnownUnit
    ensures { result ≡ unit_at mem.now place }
{
    let i = place.0;
    KnownUnit(mem[326 + 16 * i + 0] as usize % UNITS)
}

// ---- a fresh board

// No unit is frozen.
#[tactic(auto, using(crate::proofs::Begins::cleared_none, crate::proofs::Begins::cleared_next))]
fn clear_freezes(mem: &mut [u32; WORDS])
    ensures { mem.new ≡ cleared 64 mem.old }
{
    for unit in 0..UNITS {
        mem[262 + unit] = 0;
    }
}

// A fresh board, from any words: all places free, no unit frozen. The clock is 0, the mark 63 and no ticket given: they are the
// caller's to set.
#[tactic(auto, using(crate::proofs::Begins::begins))]
pub fn fresh(mem: &mut [u32; WORDS])
    ensures { Fresh mem.new }
{
    rows::begin(mem);
    clear_freezes(mem);
}

// ---- taking in

// A live request has this address: a look along the plane of addresses, free places aside. (At every one of them, without a branch: the
// compiler then compares several at a time.)
#[tactic(auto, using(crate::proofs::Held::held_none, crate::proofs::Held::held_next))]
fn address_held(mem: &[u32; WORDS], address: u32) -> bool
    ensures { result ≡ held_to 32 mem.now address }
{
    let mut held = false;
    for i in 0..PLACES {
        held |= (mem[230 + i] == address) & (mem[32 + i] != 0);
    }
    held
}

// A request is written at a place.
fn write_request(mem: &mut [u32; WORDS], place: Place, q: Request)
    ensures { mem.new ≡ written mem.old place q }
{
    let i = place.0;
    let b = 326 + 16 * i;
    mem[198 + i] = q.ticket.0;
    mem[230 + i] = q.address;
    mem[b + 0] = u32::from(q.unit.0);
    mem[b + 1] = q.callback;
    mem[b + 2] = u32::from(q.wanted);
    mem[b + 3] = q.length;
    mem[b + 4] = u32::from(q.sense);
    mem[b + 5] = u32::from(q.autosense);
    mem[b + 6] = q.timeout;
    mem[b + 7] = q.cdb.first;
    mem[b + 8] = q.cdb.second;
    mem[b + 9] = q.cdb.third;
}

// The first free place is taken; the request is written there, and joins its unit's waiting order, at the front or at the end.
#[tactic(auto, unfolding(crate::specs::TakingIn::entered))]
fn enter(mem: &mut [u32; WORDS], place: Place, q: Request, front: bool)
    requires { q.unit.0 < 64 }
    ensures { mem.new ≡ entered mem.old place q front }
{
    let row = waiting_on(KnownUnit(usize::from(q.unit.0)));
    rows::take_first(mem, FREE, place);
    write_request(mem, place, q);
    if front {
        rows::put_first(mem, row, place);
    } else {
        rows::put_last(mem, row, place);
    }
}

// A block is let in: checks 1 to 8 on the block, 9 to 11 on the board, first that applies; else its request gets the next ticket and
// waits. (Byte 7 is written afterwards.)
fn admit(mem: &mut [u32; WORDS], block: &[u8], given: &mut u32) -> Result<Ticket, Refusal>
    ensures { TakesIn mem.old mem.new block.now (with_status (status_said result) block.now) given.old given.new (taking_in_says result) }
{
    let ticket = Ticket(given.wrapping_add(1));
    let Passed { request, front } = block::examine(block, ticket)?;
    if address_held(mem, request.address) {
        return Err(Refusal::InvalidRequest);
    }
    if *given == u32::MAX {
        return Err(Refusal::CamBusy);
    }
    let place = rows::first_of(mem, FREE).ok_or(Refusal::CamBusy)?;
    enter(mem, place, request, front);
    *given = ticket.0;
    Ok(ticket)
}

// Take a request in. `given` is the last ticket given. Byte 7 tells the block: 00h, or the refusal's number.
pub fn take_in(mem: &mut [u32; WORDS], block: &mut [u8], given: &mut u32) -> Result<Ticket, Refusal>
    ensures { TakesIn mem.old mem.new block.old block.new given.old given.new (taking_in_says result) }
{
    let taken = admit(mem, block, given);
    let status = match taken {
        Ok(_) => 0x00,
        Err(why) => u8::from(why),
    };
    block::write_status(block, status);
    taken
}

// ---- the finished line

// Look at the finished line: the first ticket, address, callback and whether callback is wanted, or "empty".
#[tactic(auto, using(crate::proofs::Looks::look_empty, crate::proofs::Looks::look_first))]
pub fn look(mem: &[u32; WORDS]) -> Option<First>
    ensures { (rest : Rest) → Does mem.now mem.now rest rest look (looking_says result) [] }
{
    let place = rows::first_of(mem, FINISHED)?;
    let q = request_at(mem, place);
    Some(First {
        ticket: q.ticket,
        address: q.address,
        callback: q.callback,
        wanted: q.wanted,
    })
}

// ---- freeze and release

// A unit is frozen, or isn't, whatever it was: whether it was frozen before; refused above 63.
#[tactic(auto, using(crate::proofs::Freezes::unit_refused, crate::proofs::Freezes::unit_set))]
fn set_freeze(mem: &mut [u32; WORDS], u: Unit, frozen: bool) -> Result<bool, NoSuchUnit>
    ensures { FreezeSet mem.old mem.new u.0 (bit frozen) result }
{
    let KnownUnit(i) = known(u)?;
    let was = mem[262 + i];
    mem[262 + i] = u32::from(frozen);
    Ok(was != 0)
}

// Freeze a unit. (Freeze and release are two calls of document 01, over one body.)
pub fn freeze(mem: &mut [u32; WORDS], u: Unit) -> Result<bool, NoSuchUnit>
    ensures { Freezes mem.old mem.new u (freeze u) (freezing_says result) }
{
    set_freeze(mem, u, true)
}

// Release a unit.
pub fn release(mem: &mut [u32; WORDS], u: Unit) -> Result<bool, NoSuchUnit>
    ensures { Freezes mem.old mem.new u (release u) (freezing_says result) }
{
    set_freeze(mem, u, false)
}

// ---- sending

// The unit has an active request. (Whether any is active is asked first: the compiler then takes the walk out of the rotation while none is.)
fn is_busy(mem: &[u32; WORDS], unit: KnownUnit) -> bool
    ensures { result ≡ has_active mem.now unit }
{
    rows::first_of(mem, ACTIVE).is_some()
        && rows::places_of(mem, ACTIVE).any(|place| unit_at(mem, place).0 == unit.0)
}

// A unit is eligible if something waits on it, it isn't frozen and it has none active.
#[tactic(auto, unfolding(crate::specs::Words::can_send))]
fn can_go(mem: &[u32; WORDS], unit: KnownUnit) -> bool
    ensures { result ≡ can_send mem.now (the_unit unit) }
{
    rows::first_of(mem, waiting_on(unit)).is_some() && mem[262 + unit.0] == 0 && !is_busy(mem, unit)
}

// Look at units from mark + 1 round to the mark itself, and stop at the first eligible one. (Document 01 names the form: a loop that
// breaks with the found unit and its count, or ends with none.)
#[tactic(auto, using(crate::proofs::Eligible::rotation_over, crate::proofs::Eligible::rotation_stop, crate::proofs::Eligible::rotation_next))]
fn rotate(mem: &[u32; WORDS], mark: Unit) -> Option<Found>
    ensures { result ≡ rotation (can_send mem.now) mark 64 1 }
{
    let from = usize::from(mark.0);
    let mut n: usize = 1;
    loop {
        if 64 < n {
            break None;
        }
        let u = (from + n) % 64;
        if can_go(mem, KnownUnit(u)) {
            break Some(Found {
                unit: Unit(u as u8),
                looked: n as u8,
            });
        }
        n += 1;
    }
}

// The first request waiting on a unit, which has one, is sent: it becomes active, and its start is the clock. Answers the request.
#[tactic(auto, unfolding(crate::specs::Words::launched, crate::specs::Words::started, crate::specs::Words::stores))]
fn launch(mem: &mut [u32; WORDS], unit: KnownUnit, clock: u32) -> Request
    requires { head mem.old (3 + unit) < 32 }
    ensures { (mem.new ≡ launched mem.old unit clock) × (result ≡ request_at mem.old (head mem.old (3 + unit))) }
{
    let row = waiting_on(unit);
    let place = rows::first_of(mem, row).unwrap();
    let i = place.0;
    let q = request_at(mem, place);
    rows::take_first(mem, row, place);
    mem[326 + 16 * i + 10] = clock;
    mem[326 + 16 * i + 11] = 0;
    mem[326 + 16 * i + 12] = 0;
    rows::put_last(mem, ACTIVE, place);
    q
}

// What a send gives: the answer, and the mark afterwards.
#[derive(Clone, Copy)]
pub struct Went {
    pub answer: Sending,
    pub mark: Unit,
}

// Send: the next request that may go becomes active, or "nothing".
#[tactic(auto, using(crate::proofs::Sends::full_sends))]
pub fn send(mem: &mut [u32; WORDS], clock: u32, mark: Unit) -> Went
    ensures { Sends mem.old mem.new clock mark result.mark (sending_says result.answer) }
{
    if 8 <= rows::length_of(mem, ACTIVE) {
        return Went {
            answer: Sending {
                sent: None,
                looked: 0,
            },
            mark,
        };
    }
    match rotate(mem, mark) {
        None => Went {
            answer: Sending {
                sent: None,
                looked: 64,
            },
            mark,
        },
        Some(Found { unit, looked }) => {
            let q = launch(mem, KnownUnit(usize::from(unit.0)), clock);
            let sent = Some(Sent {
                ticket: q.ticket,
                unit,
                cdb: q.cdb,
            });
            Went {
                answer: Sending { sent, looked },
                mark: unit,
            }
        }
    }
}

// ---- hand back

// The finished request at a place.
fn finished_at(mem: &[u32; WORDS], place: Place) -> Finished
    ensures { result ≡ finished_at mem.now place }
{
    let i = place.0;
    let b = 326 + 16 * i;
    let request = request_at(mem, place);
    let residual = block::signed_of(mem[b + 13]);
    Finished {
        request,
        told: Told {
            status: (mem[b + 10] % 256) as u8,
            scsi: (mem[b + 11] % 256) as u8,
            unsensed: (mem[b + 12] % 256) as u8,
            residual,
        },
    }
}

// Hand back with a lent block: its seven bytes are written, and the first finished request is removed; its place is free.
#[tactic(auto, using(crate::proofs::HandsBack::hand_back_empty, crate::proofs::HandsBack::hand_back_other, crate::proofs::HandsBack::hand_back_first))]
pub fn hand_back(mem: &mut [u32; WORDS], block: &mut [u8]) -> Result<Handed, NotHanded>
    ensures { HandsBack mem.old mem.new block.old block.new (handing_back_says result) }
{
    let place = rows::first_of(mem, FINISHED).ok_or(NotHanded::LineEmpty)?;
    let x = finished_at(mem, place);
    if !block::hand_over(block, x) {
        return Err(NotHanded::NotItsBlock);
    }
    rows::take_first(mem, FINISHED, place);
    rows::put_last(mem, FREE, place);
    Ok(Handed {
        ticket: x.request.ticket,
        told: x.told,
    })
}

// ---- how a request ends

// The active request at a place.
fn active_at(mem: &[u32; WORDS], place: Place) -> Active
    ensures { result ≡ active_at mem.now place }
{
    let i = place.0;
    let b = 326 + 16 * i;
    let request = request_at(mem, place);
    Active {
        request,
        start: mem[b + 10],
        asked: mem[b + 11] != 0,
        overdue: mem[b + 12] != 0,
    }
}

// What a block will be told is kept at a place. (ToldFits: its numbers fit, as a `Told`'s do by their types. The laws of the words ask for
// it, which know no types.)
fn write_told(mem: &mut [u32; WORDS], place: Place, told: Told)
    ensures { (mem.new ≡ closed mem.old place told) × ToldFits told }
{
    let i = place.0;
    let signed = told.residual;
    let residual = block::word_of(signed);
    mem[326 + 16 * i + 10] = u32::from(told.status);
    mem[326 + 16 * i + 11] = u32::from(told.scsi);
    mem[326 + 16 * i + 12] = u32::from(told.unsensed);
    mem[326 + 16 * i + 13] = residual;
}

// A request of a row ends: it goes to the back of the finished line.
#[tactic(auto, unfolding(crate::specs::Words::finished_words))]
fn finish(mem: &mut [u32; WORDS], row: Row, spot: Spot, told: Told)
    ensures { (mem.new ≡ finished_words mem.old row spot.before spot.place told) × ToldFits told }
{
    let Spot { before, place } = spot;
    rows::take_out(mem, row, before, place);
    write_told(mem, place, told);
    rows::put_last(mem, FINISHED, place);
}

// A bad end freezes its unit.
#[tactic(auto, unfolding(crate::specs::Words::frozen_if))]
fn freeze_if(mem: &mut [u32; WORDS], unit: KnownUnit, bad: bool)
    ensures { mem.new ≡ frozen_if mem.old unit bad }
{
    if bad {
        mem[262 + unit.0] = 1;
    }
}

// An event on an active request.
fn report_at(mem: &mut [u32; WORDS], spot: Spot, what: Event, moved: u32) -> Result<(), Unreported>
    ensures { Reported mem.old mem.new spot.before spot.place (closing_of mem.old spot.place what moved) result }
{
    let place = spot.place;
    let a = active_at(mem, place);
    let unit = unit_at(mem, place);
    let frozen = mem[262 + unit.0] != 0;
    let Closed { told, bad } = ends::close(a, what, moved, frozen)?;
    finish(mem, ACTIVE, spot, told);
    freeze_if(mem, unit, bad);
    Ok(())
}

// The adapter reports an event on a ticket, with the bytes moved. (The spot is taken apart, since the check does not carry it whole past
// the `?`.)
#[tactic(auto, using(crate::proofs::Reports::report_none, crate::proofs::Reports::report_some))]
pub fn report(
    mem: &mut [u32; WORDS],
    ticket: Ticket,
    what: Event,
    moved: u32,
) -> Result<(), Unreported>
    ensures { (rest : Rest) → Does mem.old mem.new rest rest (event ticket what moved) (reporting_says result) [] }
{
    let Spot { before, place } = rows::seek(mem, ACTIVE, ticket).ok_or(Unreported::NotActive)?;
    report_at(mem, Spot { before, place }, what, moved)
}

// ---- abort

// A request that waits: its unit, and where it stands in that unit's row.
#[derive(Clone, Copy)]
struct Waiting {
    unit: KnownUnit,
    spot: Spot,
}

// The first unit on which the ticket waits, and where.
#[tactic(auto, using(crate::proofs::AbortsBy::none_more))]
fn waits_on(mem: &[u32; WORDS], ticket: Ticket) -> Option<Waiting>
    ensures { WaitsOn mem.now ticket.0 result }
{
    for u in 0..UNITS {
        let unit = KnownUnit(u);
        if let Some(spot) = rows::seek(mem, waiting_on(unit), ticket) {
            return Some(Waiting { unit, spot });
        }
    }
    None
}

// The request at a place is marked: the host asked for its abort.
#[tactic(auto, unfolding(crate::specs::Aborts::asked_words))]
fn mark_asked(mem: &mut [u32; WORDS], place: Place)
    ensures { mem.new ≡ asked_words mem.old place }
{
    let i = place.0;
    mem[326 + 16 * i + 11] = 1;
}

// A request, waiting on a unit, ends with 02h.
#[tactic(auto, unfolding(crate::specs::Aborts::aborted_told, crate::specs::Aborts::aborted_words))]
fn end_waiting(mem: &mut [u32; WORDS], unit: KnownUnit, spot: Spot)
    ensures { (mem.new ≡ aborted_words mem.old unit spot.before spot.place) × ToldFits (aborted_told mem.old unit spot.place) }
{
    let request = request_at(mem, spot.place);
    let frozen = mem[262 + unit.0] != 0;
    let told = ends::aborted(request, frozen);
    finish(mem, waiting_on(unit), spot, told);
}

// Abort by ticket: waiting ends at once, active is marked asked, else refusal 03h.
#[tactic(auto, using(crate::proofs::AbortsBy::abort_waiting_done, crate::proofs::AbortsBy::abort_active_done, crate::proofs::AbortsBy::abort_refused))]
pub fn abort(mem: &mut [u32; WORDS], ticket: Ticket) -> Result<(), UnableToAbort>
    ensures { (rest : Rest) → Does mem.old mem.new rest rest (abort ticket) (aborting_says result) [] }
{
    if let Some(Waiting { unit, spot }) = waits_on(mem, ticket) {
        end_waiting(mem, unit, spot);
        return Ok(());
    }
    let spot = rows::seek(mem, ACTIVE, ticket).ok_or(UnableToAbort)?;
    mark_asked(mem, spot.place);
    Ok(())
}

// ---- tick

// The active request at a place is overdue if it is late at this time.
#[tactic(auto, unfolding(crate::specs::Ticking::marked))]
fn mark_if_late(mem: &mut [u32; WORDS], place: Place, clock: u32)
    ensures { mem.new ≡ marked mem.old place clock }
{
    let i = place.0;
    let a = active_at(mem, place);
    if ends::late_at(clock, a) {
        mem[326 + 16 * i + 12] = 1;
    }
}

// Each active request that is late at this time is overdue. (Link by link, and no Walk: that would keep the memory from being written
// on the way.)
#[tactic(auto, using(crate::proofs::Ticks::walk_begun, crate::proofs::Ticks::walk_ended, crate::proofs::Ticks::walk_over, crate::proofs::Ticks::mark_more))]
fn mark_late(mem: &mut [u32; WORDS], clock: u32)
    ensures { mem.new ≡ all_marked mem.old clock (row_of mem.old 2) }
{
    let mut at = rows::first_of(mem, ACTIVE);
    for _ in 0..PLACES {
        let Some(place) = at else {
            return;
        };
        mark_if_late(mem, place, clock);
        at = rows::next_of(mem, place);
    }
}

// Tick: the clock counts seconds in 32 bits and goes round; each active request that is late by then is overdue, and stays so.
pub fn tick(mem: &mut [u32; WORDS], clock: u32) -> u32
    ensures { Ticks mem.old mem.new clock result }
{
    let next = clock.wrapping_add(1);
    mark_late(mem, next);
    next
}

// ---- bus reset

// An active request ends with 0Eh, and its unit is frozen.
#[tactic(auto, unfolding(crate::specs::Resets::reset_told, crate::specs::Resets::reset_words))]
fn end_by_reset(mem: &mut [u32; WORDS], spot: Spot)
    ensures { (mem.new ≡ reset_words mem.old spot.before spot.place) × ToldFits (reset_told mem.old spot.place) }
{
    let request = request_at(mem, spot.place);
    let unit = unit_at(mem, spot.place);
    let told = ends::reset(request);
    finish(mem, ACTIVE, spot, told);
    freeze_if(mem, unit, true);
}

// Where the smallest ticket of the active requests stands.
#[tactic(auto, unfolding(crate::specs::Resets::smallest_spot))]
fn smallest_spot(mem: &[u32; WORDS]) -> Option<Spot>
    ensures { result ≡ smallest_spot mem.now }
{
    let ticket = rows::smallest(mem, ACTIVE)?;
    rows::seek(mem, ACTIVE, ticket)
}

// Bus reset: every active request ends, smallest ticket first. (At most as many as there are places, whatever the links say.)
#[tactic(auto, using(crate::proofs::ResetsAll::reset_over))]
pub fn reset(mem: &mut [u32; WORDS])
    ensures { (rest : Rest) → Does mem.old mem.new rest rest reset done [] }
{
    for _ in 0..PLACES {
        let Some(spot) = smallest_spot(mem) else {
            return;
        };
        end_by_reset(mem, spot);
    }
}
