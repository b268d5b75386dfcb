// How a request ends: what an event makes of an active request, the ends without an event, and when a request is late.
#![tactic(auto)]

ghost use Rattle.std.specs.Prelude.{◌≡◌, ◌%◌, ◌<◌, ◌≤◌, true, pos, ◌-ℤ◌, MatchResult, if◌then◌else◌};
ghost use Rattle.board.specs.Plain.{◌=?◌};
ghost use Rattle.board.specs.Ending.{bytes_of, end_unmoved, ending, told};
ghost use Rattle.board.specs.Calls.{late};
ghost use Rattle.ends.specs.Closing.{capped_request, capped, closed};
ghost use Rattle.ends.specs.Model.{Countable, plainly, overdue_or, abort_done, completely, by_event};

use board::{Active, End, Event, Implausible, Request, Sense, Told};

// What an event that can be makes of an active request: what its block will be told, and whether the end freezes its unit.
#[derive(Clone, Copy)]
pub struct Closed {
    pub told: Told,
    pub bad: bool,
}

// ---- what is reported

// The sense bytes that came.
fn bytes_of(sense: Sense) -> u8
    ensures { result ≡ bytes_of sense }
{
    match sense {
        Sense::Bytes(n) => n,
        Sense::Failed | Sense::None => 0,
    }
}

// 24 bits of a data length, which a request that was taken in has anyway.
fn capped_length(length: u32) -> u32
    ensures { (result ≡ length % 0x1000000) × (result < 0x1000000) }
{
    length % 0x1000000
}

// The active request with its data length so capped.
#[tactic(auto, unfolding(crate::specs::Closing::capped, crate::specs::Closing::capped_request))]
fn capped(a: Active) -> Active
    ensures { (result ≡ capped a) × (result.request.length < 0x1000000) }
{
    let length = capped_length(a.request.length);
    let request = Request {
        length,
        ..a.request
    };
    Active { request, ..a }
}

// An active request and the bytes moved, such that the residual fits.
#[derive(Clone, Copy)]
struct Report {
    active: Active,
    moved: u32,
    ghost countable: { Countable active.request.length moved },
}

impl Report {
    // More than 7FFFFFFFh bytes can't be.
    fn new(a: Active, moved: u32) -> Result<Report, Implausible>
        ensures { MatchResult result (λ r. (r.active ≡ capped a) × (r.moved ≡ moved) × (moved ≤ 0x7FFFFFFF)) (λ _. 0x7FFFFFFF < moved) }
    {
        if 0x7FFFFFFF < moved {
            return Err(Implausible);
        }
        let active = capped(a);
        Ok(Report { active, moved })
    }

    // Data length minus bytes moved; below zero where more were moved.
    fn residual(self) -> i32
        ensures { result ≡ pos self.active.request.length -ℤ pos self.moved }
    {
        self.active.request.length as i32 - self.moved as i32
    }

    // ---- the table of ends

    // An end by an event other than "complete".
    #[tactic(auto, unfolding(crate::specs::Model::plainly))]
    fn plain_end(self, base: u8) -> End
        ensures { result ≡ plainly self.active self.moved base }
    {
        End {
            base,
            scsi: 0,
            sensed: false,
            unsensed: 0,
            residual: self.residual(),
        }
    }

    // The same, where an overdue request has base status 0Bh.
    fn own_end(self, base: u8) -> End
        ensures { result ≡ plainly self.active self.moved (overdue_or self.active base) }
    {
        self.plain_end(if self.active.overdue { 0x0B } else { base })
    }

    // "Abort done": 02h where the host asked, 0Bh where overdue, else refused.
    #[tactic(auto, unfolding(crate::specs::Model::abort_done, crate::specs::Model::plainly))]
    fn abort_end(self) -> Result<End, Implausible>
        ensures { result ≡ abort_done self.active self.moved }
    {
        if self.active.asked {
            Ok(self.plain_end(0x02))
        } else if self.active.overdue {
            Ok(self.plain_end(0x0B))
        } else {
            Err(Implausible)
        }
    }

    // "Complete".
    #[tactic(auto, unfolding(crate::specs::Model::completely))]
    fn complete_end(self, scsi: u8, sense: Sense) -> Result<End, Implausible>
        ensures { result ≡ completely self.active self.moved scsi sense }
    {
        let request = self.active.request;
        let looked = (scsi == 0x02) & request.autosense & (1 <= request.sense);
        let came = bytes_of(sense);
        if looked & (request.sense < came) {
            return Err(Implausible);
        }
        let base = if self.active.overdue {
            0x0B
        } else if request.length < self.moved {
            0x12
        } else if looked & (came == 0) {
            0x10
        } else if (scsi == 0x00) | (scsi == 0x04) {
            0x01
        } else {
            0x04
        };
        let unsensed = if looked {
            request.sense.saturating_sub(came)
        } else {
            0
        };
        Ok(End {
            base,
            scsi,
            sensed: looked & (1 <= came),
            unsensed,
            residual: self.residual(),
        })
    }

    // The table, by the event.
    #[tactic(auto, unfolding(crate::specs::Model::by_event))]
    fn end_by(self, event: Event) -> Result<End, Implausible>
        ensures { result ≡ by_event self.active self.moved event }
    {
        match event {
            Event::AbortDone => self.abort_end(),
            Event::SelectionTimeout => Ok(self.own_end(0x0A)),
            Event::Parity => Ok(self.own_end(0x0F)),
            Event::BusFree => Ok(self.own_end(0x13)),
            Event::Phase => Ok(self.own_end(0x14)),
            Event::AdapterError => Ok(self.own_end(0x19)),
            Event::Complete { status, sense } => self.complete_end(status, sense),
        }
    }
}

// The end of an active request by an event, or refusal 102.
#[tactic(auto, using(crate::proofs::Table::too_many, crate::proofs::Table::table))]
fn end_of(a: Active, event: Event, moved: u32) -> Result<End, Implausible>
    ensures { result ≡ ending (capped a) event moved }
{
    let report = Report::new(a, moved)?;
    report.end_by(event)
}

// ---- what a block is told

// What a block is told of an end after which its unit is frozen, or not: base, +80h if sense was looked at and at least 1
// byte came, +40h if the unit is frozen.
#[tactic(auto, unfolding(board::specs::Ending::told))]
fn told_of(e: End, frozen: bool) -> Told
    requires { e.base < 64 }
    ensures { result ≡ told e frozen }
{
    let sensed_bit = if e.sensed { 0x80 } else { 0 };
    let frozen_bit = if frozen { 0x40 } else { 0 };
    Told {
        status: e.base + sensed_bit + frozen_bit,
        scsi: e.scsi,
        unsensed: e.unsensed,
        residual: e.residual,
    }
}

// What an event with these bytes moved makes of an active request whose unit was frozen before, or not.
#[tactic(auto, using(crate::proofs::Small::small), unfolding(crate::specs::Closing::closed))]
pub fn close(a: Active, event: Event, moved: u32, frozen: bool) -> Result<Closed, Implausible>
    ensures { result ≡ closed (ending (capped a) event moved) frozen }
{
    let end = end_of(a, event, moved)?;
    let bad = end.base != 0x01;
    let told = told_of(end, frozen | bad);
    Ok(Closed { told, bad })
}

// ---- ends without an event

// What a block is told of an end without an event: nothing moved, so the residual is the whole data length.
#[tactic(auto, unfolding(board::specs::Ending::told, board::specs::Ending::end_unmoved, crate::specs::Closing::capped_request))]
fn unmoved(q: Request, base: u8, frozen: bool) -> Told
    requires { base < 64 }
    ensures { result ≡ told (end_unmoved base (capped_request q)) frozen }
{
    let end = End {
        base,
        scsi: 0,
        sensed: false,
        unsensed: 0,
        residual: capped_length(q.length) as i32,
    };
    told_of(end, frozen)
}

// Abort while waiting: 02h, and no freeze. (This and a bus reset are two ends of document 01, over one body.)
pub fn aborted(q: Request, frozen: bool) -> Told
    ensures { result ≡ told (end_unmoved 0x02 (capped_request q)) frozen }
{
    unmoved(q, 0x02, frozen)
}

// Bus reset of an active request: 0Eh, after which its unit is frozen.
pub fn reset(q: Request) -> Told
    ensures { result ≡ told (end_unmoved 0x0E (capped_request q)) true }
{
    unmoved(q, 0x0E, true)
}

// ---- lateness

// The seconds that a timeout gives: 0 means 30 (house).
fn allowed(timeout: u32) -> u32
    ensures { result ≡ (if timeout =? 0 then 30 else timeout) }
{
    if timeout == 0 { 30 } else { timeout }
}

// Its seconds since its start exceed its timeout; FFFFFFFFh never ends.
#[tactic(auto, unfolding(board::specs::Calls::late))]
pub fn late_at(now: u32, a: Active) -> bool
    ensures { result ≡ late now a }
{
    let timeout = a.request.timeout;
    let seconds = now.wrapping_sub(a.start);
    (timeout != 0xFFFFFFFF) & (allowed(timeout) < seconds)
}
