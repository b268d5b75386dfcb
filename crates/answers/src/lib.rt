// The line that answers a record of the replay's log: one function for each letter. Each writes the line anew.
#![tactic(auto)]

ghost use Rattle.std.specs.Prelude.{◌≡◌, [], ◌∷◌};
ghost use Rattle.board.specs.Answers.{done, time, taking_in_says, sending_says, reporting_says, aborting_says, handing_back_says};
ghost use Rattle.answers.specs.Letters as letter;
ghost use Rattle.answers.specs.Answer.{after_tabs, print, PrintsBefore, unclear, head};

mod text;

use board::{
    Handed, NoSuchUnit, NotHanded, Refusal, Sending, Sent, Ticket, UnableToAbort, Unreported,
};
pub use text::Text;
use text::{Code, Field};

// A letter and one field.
#[inline]
fn line<F: Field>(c: u8, f: F, text: &mut Text)
    ensures { text.new ≡ c ∷ after_tabs (F.shows f ∷ []) }
{
    text.begin(c);
    text.field(f);
    text.push(b'\n');
}

// S
pub fn taking_in(a: Result<Ticket, Refusal>, text: &mut Text)
    ensures { text.new ≡ print letter.S (taking_in_says a) }
{
    let (status, ticket) = match a {
        Ok(ticket) => (0x00, ticket.0),
        Err(why) => (u8::from(why), 0),
    };
    text.begin(b'S');
    text.field(Code(status));
    text.field(ticket);
    text.push(b'\n');
}

// N
pub fn sending(a: Sending, text: &mut Text)
    ensures { text.new ≡ print letter.N (sending_says a) }
{
    text.begin(b'N');
    match a.sent {
        Some(
            Sent {
                ticket,
                unit,
                cdb: _,
            },
        ) => {
            text.field(ticket.0);
            text.field(u32::from(unit.0));
        }
        None => {
            text.push(b'\t');
            text.push(b'-');
        }
    }
    text.field(u32::from(a.looked));
    text.push(b'\n');
}

// E. (From here on some differ in the letter alone: each is a call or two of `line`.)
pub fn reporting(a: Result<(), Unreported>, text: &mut Text)
    ensures { text.new ≡ print letter.E (reporting_says a) }
{
    line(b'E', a.map(|()| 0).map_err(u8::from), text);
}

// A
pub fn aborting(a: Result<(), UnableToAbort>, text: &mut Text)
    ensures { text.new ≡ print letter.A (aborting_says a) }
{
    line(b'A', a.map(|()| 0).map_err(u8::from), text);
}

// F. (Of any value that stands for what was before: the desk's bool, or a caller's number.)
pub fn freezing<B: Into<u32>>(a: Result<B, NoSuchUnit>, text: &mut Text)
    ensures { PrintsBefore B.converts letter.F a text.new }
{
    match a {
        Ok(before) => line(b'F', before.into(), text),
        Err(why) => line(b'F', Err(u8::from(why)), text),
    }
}

// R
pub fn releasing<B: Into<u32>>(a: Result<B, NoSuchUnit>, text: &mut Text)
    ensures { PrintsBefore B.converts letter.R a text.new }
{
    match a {
        Ok(before) => line(b'R', before.into(), text),
        Err(why) => line(b'R', Err(u8::from(why)), text),
    }
}

// T
pub fn ticking(clock: u32, text: &mut Text)
    ensures { text.new ≡ print letter.T (time clock) }
{
    line(b'T', clock, text);
}

// B
pub fn resetting(text: &mut Text)
    ensures { text.new ≡ print letter.B done }
{
    line(b'B', 0u32, text);
}

// H
pub fn handing_back(a: Result<Handed, NotHanded>, text: &mut Text)
    ensures { text.new ≡ print letter.H (handing_back_says a) }
{
    match a {
        Ok(Handed { ticket, told }) => {
            text.begin(b'H');
            text.field(ticket.0);
            text.field(Code(told.status));
            text.field(Code(told.scsi));
            text.field(u32::from(told.unsensed));
            text.field(told.residual);
            text.push(b'\n');
        }
        Err(why) => line(b'H', Err(u8::from(why)), text),
    }
}

// A line that is not of the form.
pub fn malformed(text: &mut Text)
    ensures { text.new ≡ unclear }
{
    text.write(b"?\n");
}

// The first line of all: board, tab, 1.
pub fn head_line(text: &mut Text)
    ensures { text.new ≡ head }
{
    text.write(b"board\t1\n");
}
