// The kinds of thing that document 01 speaks of, declared once: the definitions in specs/ and the code of the crates
// above use the same types. In document 01's order. There is no code here but conversions: a unit from its number, an event
// from its code, a refusal to its number.
#![tactic(auto)]

ghost use Rattle.std.specs.Prelude.{◌≡◌, min};
ghost use Rattle.board.specs.Answers.{number, abort_number, event_number, unit_number, hand_back_number};
ghost use Rattle.board.specs.Ending.{event_named};
ghost use Rattle.board.specs.declared.Unreported.TheVariants as unreported;

// ---- what the board holds

// Ticket, place and unit are three kinds of number that must never be taken for one another. (A place is how the code
// stores a request; it comes with the code.)
#[derive(Clone, Copy, Debug, PartialEq, Eq)]
pub struct Ticket(pub u32);

// Target x 8 + LUN, 0 to 63.
#[derive(Clone, Copy, Debug, PartialEq, Eq)]
pub struct Unit(pub u8);

// A unit by any number: one above 255 is never cut to 8 bits. (255 is no unit either.)
impl From<u32> for Unit {
    ghost from_gives = { λ n u. u.0 ≡ min n 255 };

    fn from(n: u32) -> Unit {
        Unit(n.min(255) as u8)
    }
}

// The 12 CDB bytes as three little-endian words: definitions and theorems speak of the words.
#[derive(Clone, Copy, Debug, PartialEq, Eq)]
pub struct Cdb {
    pub first: u32,
    pub second: u32,
    pub third: u32,
}

// A live request: its ticket, and what the board needs of the block.
#[derive(Clone, Copy)]
pub struct Request {
    pub ticket: Ticket,
    pub unit: Unit,
    pub address: u32,
    pub callback: u32,
    // The callback is wanted: its disable flag is clear. (No Option: a look shows the value either way.)
    pub wanted: bool,
    // Data length.
    pub length: u32,
    // Sense length.
    pub sense: u8,
    // Autosense is not disabled.
    pub autosense: bool,
    pub timeout: u32,
    pub cdb: Cdb,
}

// An active request: the clock when it was sent, and its two marks, that the host asked for its abort and that it is
// overdue.
#[derive(Clone, Copy)]
pub struct Active {
    pub request: Request,
    pub start: u32,
    pub asked: bool,
    pub overdue: bool,
}

// What a block is told when its request is handed back: the status byte, the SCSI status, the autosense residual and
// the residual.
#[derive(Clone, Copy, Debug, PartialEq, Eq)]
pub struct Told {
    pub status: u8,
    pub scsi: u8,
    pub unsensed: u8,
    pub residual: i32,
}

// A finished request.
#[derive(Clone, Copy)]
pub struct Finished {
    pub request: Request,
    pub told: Told,
}

// ---- sending

// What the rotation finds, if any unit is eligible: the first that is, with how many units were looked at.
#[derive(Clone, Copy)]
pub struct Found {
    pub unit: Unit,
    pub looked: u8,
}

// ---- how a request ends

// What became of the sense: a byte count, failed, or none. (Document 01 names these three.)
#[derive(Clone, Copy)]
pub enum Sense {
    Bytes(u8),
    Failed,
    None,
}

// What the adapter reports on a ticket.
#[derive(Clone, Copy)]
pub enum Event {
    AbortDone,
    SelectionTimeout,
    Parity,
    BusFree,
    Phase,
    AdapterError,
    Complete { status: u8, sense: Sense },
}

// A code that no event has.
#[derive(Clone, Copy, Debug, PartialEq, Eq)]
pub struct NoSuchEvent;

// The event that a code names, where it has a status of its own.
impl TryFrom<u32> for Event {
    type Error = NoSuchEvent;

    ghost try_from_gives = { λ code r. r ≡ event_named code };

    #[tactic(auto, unfolding(crate::specs::Ending::event_named))]
    fn try_from(code: u32) -> Result<Event, NoSuchEvent> {
        match code {
            0x0A => Ok(Event::SelectionTimeout),
            0x0F => Ok(Event::Parity),
            0x13 => Ok(Event::BusFree),
            0x14 => Ok(Event::Phase),
            0x19 => Ok(Event::AdapterError),
            _ => Err(NoSuchEvent),
        }
    }
}

// What an end is made of, before it is known whether its unit is frozen: the base status, the SCSI status, whether sense
// was looked at and at least 1 byte came, the autosense residual, the residual.
#[derive(Clone, Copy)]
pub struct End {
    pub base: u8,
    pub scsi: u8,
    pub sensed: bool,
    pub unsensed: u8,
    pub residual: i32,
}

// An event that can't be: refusal 102. What an event makes of an active request is its end, or this.
#[derive(Clone, Copy, Debug, PartialEq, Eq)]
pub struct Implausible;

// ---- the answers: a Result for each call that can be refused, with the refusals that it has; and their numbers

// Why taking in says no, by the names that source document 000 (Table 5) has for the numbers. Taken in, a request has a ticket.
#[derive(Clone, Copy, Debug, PartialEq, Eq)]
pub enum Refusal {
    CamBusy,
    InvalidRequest,
    InvalidPath,
    LengthInadequate,
    CannotProvide,
}

impl From<Refusal> for u8 {
    ghost from_gives = { λ why n. n ≡ number why };

    fn from(why: Refusal) -> u8 {
        match why {
            Refusal::CamBusy => 0x05,
            Refusal::InvalidRequest => 0x06,
            Refusal::InvalidPath => 0x07,
            Refusal::LengthInadequate => 0x15,
            Refusal::CannotProvide => 0x16,
        }
    }
}

// A request that is sent.
#[derive(Clone, Copy, Debug, PartialEq, Eq)]
pub struct Sent {
    pub ticket: Ticket,
    pub unit: Unit,
    pub cdb: Cdb,
}

// Sending: what is sent, if anything, and how many units were looked at.
#[derive(Clone, Copy, Debug, PartialEq, Eq)]
pub struct Sending {
    pub sent: Option<Sent>,
    pub looked: u8,
}

// Why an event on a ticket ends nothing: 101, no active request has the ticket; 102, an event that can't be.
#[derive(Clone, Copy, Debug, PartialEq, Eq)]
pub enum Unreported {
    NotActive,
    Implausible,
}

impl From<Implausible> for Unreported {
    ghost from_gives = { λ _ why. why ≡ unreported.Implausible };

    fn from(_: Implausible) -> Unreported {
        Unreported::Implausible
    }
}

impl From<Unreported> for u8 {
    ghost from_gives = { λ why n. n ≡ event_number why };

    fn from(why: Unreported) -> u8 {
        match why {
            Unreported::NotActive => 101,
            Unreported::Implausible => 102,
        }
    }
}

// Why an abort says no: the ticket's request is finished, or there is none.
#[derive(Clone, Copy, Debug, PartialEq, Eq)]
pub struct UnableToAbort;

impl From<UnableToAbort> for u8 {
    ghost from_gives = { λ why n. n ≡ abort_number why };

    fn from(_: UnableToAbort) -> u8 {
        0x03
    }
}

// Why a freeze or a release says no: a unit above 63. Else it answers whether the unit was frozen before.
#[derive(Clone, Copy, Debug, PartialEq, Eq)]
pub struct NoSuchUnit;

impl From<NoSuchUnit> for u8 {
    ghost from_gives = { λ why n. n ≡ unit_number why };

    fn from(_: NoSuchUnit) -> u8 {
        103
    }
}

// What a look at the finished line sees, unless it is empty: its first request.
#[derive(Clone, Copy, Debug, PartialEq, Eq)]
pub struct First {
    pub ticket: Ticket,
    pub address: u32,
    pub callback: u32,
    pub wanted: bool,
}

// What is handed back: the ticket, and what its block was told.
#[derive(Clone, Copy, Debug, PartialEq, Eq)]
pub struct Handed {
    pub ticket: Ticket,
    pub told: Told,
}

// Why nothing is handed back: 104, the finished line is empty; 105, the block is not that of its first request.
#[derive(Clone, Copy, Debug, PartialEq, Eq)]
pub enum NotHanded {
    LineEmpty,
    NotItsBlock,
}

impl From<NotHanded> for u8 {
    ghost from_gives = { λ why n. n ≡ hand_back_number why };

    fn from(why: NotHanded) -> u8 {
        match why {
            NotHanded::LineEmpty => 104,
            NotHanded::NotItsBlock => 105,
        }
    }
}
