// One line of a replay's log in, one line out. The state: the desk's words, the copies of live requests' blocks, and what the desk's
// calls take and give by value.
#![tactic(auto)]

ghost use Rattle.std.specs.Prelude.{◌≡◌, ◌≤◌, length, IfSome};
ghost use Rattle.lines.specs.Record.{parse, submit, hand_back};
ghost use Rattle.replay_log.specs.Promise.{Begins, Replies};
ghost use Rattle.replay_log.specs.Parts.{book_after, store_after, lies_for, book_without};

use answers::Text;
use board::{First, Handed, NotHanded, Refusal, Ticket, Unit};
use copies::Copies;
use lines::Line;
use rows::WORDS;
use std::marker::Model;
use std::ops::Range;

// In clauses a `Replay` is the memory of specs/Memory.antt. (Its parts are open and it can be copied: a caller may keep a state, go on from it,
// look at its desk, or begin with any memory.)
#[derive(Clone, Copy)]
pub struct Replay {
    pub mem: [u32; WORDS],
    pub copies: Copies,
    pub clock: u32,
    pub mark: Unit,
    pub given: u32,
}

impl Model for Replay {
    ghost use Rattle.desk.specs.View.{the_rest};
    ghost use Rattle.replay_log.specs.Memory.{Memory};

    ghost Value = { Memory };

    ghost view = { λ r. record { words = r.mem; book = r.copies.book; store = r.copies.store; rest = the_rest r.clock r.mark r.given } };

    ghost inverse = { λ m. record { mem = m.words; copies = record { book = m.book; store = m.store }; clock = m.rest.clock; mark = m.rest.mark; given = m.rest.given } };
}

// An accepted block is copied, as it stands then.
fn keep(answer: Result<Ticket, Refusal>, copies: &mut Copies, block: &[u8])
    ensures { (copies.new.book ≡ book_after answer copies.old.book (length block.now)) × (copies.new.store ≡ store_after answer copies.old.book copies.old.store block.now) }
{
    if let Ok(ticket) = answer {
        copies.keep(ticket, block);
    }
}

// Where the copy of the first finished request's block lies.
fn find(seen: Option<First>, copies: &Copies) -> Option<Range<usize>>
    ensures value { result ≡ lies_for seen copies.now.book }
    ensures bounds { IfSome result (λ r. (r.start ≤ r.end) × (r.end ≤ 6400)) }
{
    copies.find(seen?.ticket)
}

// The copy of a block that was handed back is dropped.
fn forget(answer: Result<Handed, NotHanded>, copies: &mut Copies)
    ensures { (copies.new.book ≡ book_without answer copies.old.book) × (copies.new.store ≡ copies.old.store) }
{
    if let Ok(handed) = answer {
        copies.forget(handed.ticket);
    }
}

impl Replay {
    // A fresh board and no copies. (Made where it stays: a memory that is built and then moved takes 24 KiB more stack.)
    pub fn new() -> Self
        ensures { Begins result }
    {
        let mut replay = Replay {
            mem: [0; WORDS],
            copies: Copies::new(),
            clock: 0,
            mark: Unit(63),
            given: 0,
        };
        desk::fresh(&mut replay.mem);
        replay
    }

    // S: a request is taken in.
    fn take_in(&mut self, block: &mut [u8], text: &mut Text)
        requires { length block.old ≤ 200 }
        ensures { Replies self.old self.new (submit block.old) text.new }
    {
        let answer = desk::take_in(&mut self.mem, block, &mut self.given);
        keep(answer, &mut self.copies, block);
        answers::taking_in(answer, text);
    }

    // H: the first finished request is handed back, with the program's own copy of its block, or no bytes where there is none.
    fn hand_back(&mut self, text: &mut Text)
        ensures { Replies self.old self.new hand_back text.new }
    {
        let seen = desk::look(&self.mem);
        let part = find(seen, &self.copies).unwrap_or(0..0);
        // (A name of its own, by which the proof knows how long it is.)
        let store = &mut self.copies.store;
        let answer = desk::hand_back(&mut self.mem, &mut store[part]);
        forget(answer, &mut self.copies);
        answers::handing_back(answer, text);
    }

    // A line without its line feed: its answer becomes the text.
    pub fn answer_line(&mut self, line: &[u8], text: &mut Text)
        ensures { Replies self.old self.new (parse line.now) text.new }
    {
        let mut block = [0u8; 200];
        let Ok(read) = lines::parse_line(line, &mut block) else {
            answers::malformed(text);
            return;
        };
        match read {
            Line::Submit(n) => self.take_in(&mut block[..n], text),
            Line::Send => {
                let went = desk::send(&mut self.mem, self.clock, self.mark);
                self.mark = went.mark;
                answers::sending(went.answer, text);
            }
            Line::Event(ticket, what, moved) => {
                answers::reporting(desk::report(&mut self.mem, ticket, what, moved), text);
            }
            Line::Abort(ticket) => answers::aborting(desk::abort(&mut self.mem, ticket), text),
            Line::Freeze(n) => answers::freezing(desk::freeze(&mut self.mem, Unit::from(n)), text),
            Line::Release(n) => {
                answers::releasing(desk::release(&mut self.mem, Unit::from(n)), text);
            }
            Line::Tick => {
                self.clock = desk::tick(&mut self.mem, self.clock);
                answers::ticking(self.clock, text);
            }
            Line::Reset => {
                desk::reset(&mut self.mem);
                answers::resetting(text);
            }
            Line::HandBack => self.hand_back(text),
        }
    }
}
