// A short read, from a fresh desk to the block that is handed back: 512 bytes are asked for and 500 moved. The program prints what it saw;
// that every answer is the expected one is proved of `story`, from the desk's promises.
#![tactic(auto)]

ghost use Rattle.std.specs.Prelude.{◌≡◌, Ok};
ghost use Rattle.desk_main.specs.Story.{short_read, short_read_handed, short_read_seen, as_expected};

use board::{
    Event, First, Handed, NotHanded, Refusal, Sending, Sense, Sent, Ticket, Told, Unit, Unreported,
};
use rows::WORDS;
use std::io;

// What the host sees of the whole story: each call's answer.
#[derive(Clone, Copy)]
struct Seen {
    taken: Result<Ticket, Refusal>,
    sent: Sending,
    ended: Result<(), Unreported>,
    first: Option<First>,
    handed: Result<Handed, NotHanded>,
}

// ---- the story

// The block of a read: address 1000h, target 1, LUN 1, data in, 512 bytes of it, a CDB of 6 bytes, 30 seconds.
#[tactic(auto, unfolding(crate::specs::Story::short_read))]
fn a_read() -> [u8; 88]
    ensures { result ≡ short_read }
{
    let mut block = [0u8; 88];
    block[1] = 0x10;
    block[4] = 88;
    block[6] = 0x01;
    block[10] = 1;
    block[11] = 1;
    block[12] = 0x40;
    block[37] = 2;
    block[45] = 6;
    block[60] = 0x08;
    block[64] = 1;
    block[72] = 30;
    block
}

// Taken in, sent, 500 bytes moved with SCSI status 00h, looked at, handed back. (That something is sent is proved, so the adapter has a
// ticket to report on.)
fn play(mem: &mut [u32; WORDS], block: &mut [u8]) -> Seen
    requires { block.old ≡ short_read }
    ensures { (result ≡ short_read_seen) × (block.new ≡ short_read_handed) }
{
    let mut given = 0;
    desk::fresh(mem);
    let taken = desk::take_in(mem, block, &mut given);
    let sent = desk::send(mem, 0, Unit(63)).answer;
    let ticket = sent.sent.unwrap().ticket;
    let complete = Event::Complete {
        status: 0x00,
        sense: Sense::None,
    };
    let ended = desk::report(mem, ticket, complete, 500);
    let first = desk::look(mem);
    let handed = desk::hand_back(mem, block);
    Seen {
        taken,
        sent,
        ended,
        first,
        handed,
    }
}

// ---- holding it against what is expected

// Ticket 1 at each stage, 10 units looked at (9 is the tenth after 63), status 01h, and 12 of the 512 bytes missing.
#[tactic(auto, using(block::proofs::Numbers::word_is))]
fn as_expected(seen: Seen) -> bool
    ensures { result ≡ as_expected seen }
{
    matches!(
        seen,
        Seen {
            taken: Ok(Ticket(1)),
            sent: Sending {
                sent: Some(Sent {
                    ticket: Ticket(1),
                    ..
                }),
                looked: 10,
            },
            ended: Ok(()),
            first: Some(First {
                ticket: Ticket(1),
                ..
            }),
            handed: Ok(Handed {
                ticket: Ticket(1),
                told: Told {
                    status: 0x01,
                    residual: 12,
                    ..
                },
            }),
        }
    )
}

// What was seen is not what is expected.
struct Unexpected;

// Whatever the words were, every answer comes out as expected.
#[tactic(auto, unfolding(board::specs::Block::word))]
fn story(mem: &mut [u32; WORDS], block: &mut [u8]) -> Result<Seen, Unexpected>
    requires { block.old ≡ short_read }
    ensures { (result ≡ Ok short_read_seen) × (block.new ≡ short_read_handed) }
{
    let seen = play(mem, block);
    if as_expected(seen) {
        Ok(seen)
    } else {
        Err(Unexpected)
    }
}

// ---- the program

// One line of what was seen. (That a ticket was given and a request handed back is proved of what comes here.)
fn say(rt: &impl Print, seen: Seen) -> io::Result<()>
    requires { seen ≡ short_read_seen }
{
    let ticket = seen.taken.unwrap().0;
    let looked = seen.sent.looked;
    let told = seen.handed.unwrap().told;
    let status = told.status;
    let residual = block::word_of(told.residual);
    println!(rt;
        "ticket {ticket}, sent after looking at {looked} unit(s), status {status:02X}h, residual {residual}"
    )
}

// A desk in the program's own memory, and one read on it. (The last line says whether all was as expected.)
fn main(rt: HostRuntime) -> io::Result<()> {
    let mut mem = [0u32; WORDS];
    let mut block = a_read();
    match story(&mut mem, &mut block) {
        Ok(seen) => {
            say(&rt, seen)?;
            rt.println("as expected")
        }
        Err(Unexpected) => rt.println("NOT as expected"),
    }
}
