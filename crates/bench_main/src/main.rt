// The bench cases of document 01 that no replay reaches, and what else only a caller of the desk sees. Each case runs on a fresh desk,
// prints one line with what it saw, and answers whether that is what document 01 says; the last line counts them. In this order: the
// answers' numbers, printing, blocks and calls, the cases, the program.
#![tactic(auto)]

use board::{Cdb, Event, First, Handed, NotHanded, Refusal, Sense, Ticket, Unit};
use rows::WORDS;
use std::io;

// ---- the answers' numbers

// The refusal's number, 0 where there is none.
fn number<T: Copy, E: Into<u8>>(answer: Result<T, E>) -> u8 {
    match answer {
        Ok(_) => 0,
        Err(why) => why.into(),
    }
}

// The ticket that was given, or 0.
fn ticket(answer: Result<Ticket, Refusal>) -> u32 {
    answer.map_or(0, |given| given.0)
}

// The status byte of what was handed back, or 0.
fn status(answer: Result<Handed, NotHanded>) -> u8 {
    answer.map_or(0, |handed| handed.told.status)
}

// ---- printing

fn say(rt: &impl Print, text: &str) -> io::Result<()> {
    rt.print(text)
}

fn say_number(rt: &impl Print, before: &str, n: u32) -> io::Result<()> {
    print!(rt; "{before}{n}")
}

// A byte as two hex digits, upper case.
fn say_code(rt: &impl Print, before: &str, n: u8) -> io::Result<()> {
    print!(rt; "{before}{n:02X}")
}

// The four bytes of a little-endian word.
fn say_word(rt: &impl Print, w: u32) -> io::Result<()> {
    for byte in w.to_le_bytes() {
        say_code(rt, " ", byte)?;
    }
    Ok(())
}

fn say_whether(rt: &impl Print, before: &str, yes: bool) -> io::Result<()> {
    let word = if yes { "yes" } else { "no" };
    print!(rt; "{before}{word}")
}

// A case's line ends; nothing is added if it is as expected.
fn end_line(rt: &impl Print, right: bool) -> io::Result<bool> {
    if !right {
        rt.print(" NOT as expected")?;
    }
    rt.print("\n")?;
    Ok(right)
}

// ---- blocks and calls

// A request of 4,096 bytes for unit 0: address page x 100h, length 88, function 01h, CDB length 6, timeout 0.
fn plain(page: u8) -> [u8; 88] {
    let mut block = [0u8; 88];
    block[1] = page;
    block[4] = 88;
    block[6] = 0x01;
    block[37] = 16;
    block[45] = 6;
    block
}

// The block's 12 CDB bytes.
fn write_cdb(block: &mut [u8; 88], cdb: &[u8; 12]) {
    block[60..72].copy_from_slice(cdb);
}

// A block is lent, with this ticket as the last one given.
fn take(mem: &mut [u32; WORDS], block: &mut [u8], given: u32) -> Result<Ticket, Refusal> {
    let mut last = given;
    desk::take_in(mem, block, &mut last)
}

// A request on a fresh desk that is finished already: ticket 1, aborted while it waited. (Both calls are accepted, as the cases see.)
fn finish_one(mem: &mut [u32; WORDS], block: &mut [u8; 88]) {
    desk::fresh(mem);
    let _ = take(mem, block, 0);
    let _ = desk::abort(mem, Ticket(1));
}

// ---- the cases

// Ticket 1 is overdue, and nobody asked for its abort: only then does an abort that is done end it. (Else it is refused, and changes
// nothing.)
fn ends_overdue(mem: &mut [u32; WORDS]) -> bool {
    desk::report(mem, Ticket(1), Event::AbortDone, 0).is_ok()
}

// Five seconds pass.
fn tick_5(mem: &mut [u32; WORDS], clock: u32) -> u32 {
    let mut now = clock;
    for _ in 0..5 {
        now = desk::tick(mem, now);
    }
    now
}

// Sent at FFFFFFFEh with timeout 5: not overdue at clock 3, overdue at 4.
fn clock_wrap(rt: &impl Print, mem: &mut [u32; WORDS]) -> io::Result<bool> {
    let mut block = plain(0x10);
    block[72] = 5;
    desk::fresh(mem);
    let _ = take(mem, &mut block, 0);
    desk::send(mem, 0xFFFFFFFE, Unit(63));
    let third = tick_5(mem, 0xFFFFFFFE);
    let early = ends_overdue(mem);
    let fourth = desk::tick(mem, third);
    let late = ends_overdue(mem);
    let back = desk::hand_back(mem, &mut block);
    say_number(
        rt,
        "clock wrap: sent at FFFFFFFEh with timeout 5, overdue at ",
        third,
    )?;
    say_whether(rt, ": ", early)?;
    say_number(rt, ", at ", fourth)?;
    say_whether(rt, ": ", late)?;
    say_code(rt, ", status ", status(back))?;
    say(rt, "h")?;
    let when = third == 3 && fourth == 4;
    end_line(rt, when && !early && late && status(back) == 0x4B)
}

// With FFFFFFFEh given the last ticket comes; then 05h, and still 05h when the board is empty again. Byte 7 says so too.
fn last_ticket(rt: &impl Print, mem: &mut [u32; WORDS]) -> io::Result<bool> {
    let mut block = plain(0x10);
    let mut next = plain(0x11);
    desk::fresh(mem);
    let last = take(mem, &mut block, 0xFFFFFFFE);
    let beside = take(mem, &mut next, 0xFFFFFFFF);
    let _ = desk::abort(mem, Ticket(0xFFFFFFFF));
    let back = desk::hand_back(mem, &mut block);
    let alone = take(mem, &mut next, 0xFFFFFFFF);
    say_number(rt, "last ticket: ", ticket(last))?;
    say_code(rt, " given, then ", number(beside))?;
    say_code(rt, "h, and with the board empty again ", number(alone))?;
    say_code(rt, "h, byte 7 ", next[7])?;
    say(rt, "h")?;
    let given = last == Ok(Ticket(0xFFFFFFFF));
    let refused = beside == Err(Refusal::CamBusy) && alone == beside;
    end_line(rt, given && refused && back.is_ok() && next[7] == 0x05)
}

// 87 bytes lent: 104 while the finished line is empty, and 105 once it isn't, though the address is right. Nothing is written.
fn too_short(rt: &impl Print, mem: &mut [u32; WORDS]) -> io::Result<bool> {
    let mut block = plain(0x10);
    let mut short = [0xA5u8; 87];
    short[..4].copy_from_slice(&0x1000u32.to_le_bytes());
    let before = short;
    desk::fresh(mem);
    let empty = desk::hand_back(mem, &mut short);
    finish_one(mem, &mut block);
    let first = desk::hand_back(mem, &mut short);
    let kept = short == before;
    say_number(rt, "refusal 105, 87 bytes lent: ", number(empty).into())?;
    say_number(rt, " while the line is empty, then ", number(first).into())?;
    say_whether(rt, ", unwritten: ", kept)?;
    let refused = empty == Err(NotHanded::LineEmpty) && first == Err(NotHanded::NotItsBlock);
    end_line(rt, refused && kept)
}

// A block with another address: 105, and nothing is written; then its own block is handed back.
fn another_address(rt: &impl Print, mem: &mut [u32; WORDS]) -> io::Result<bool> {
    let mut block = plain(0x10);
    let mut other = [0xA5u8; 88];
    let before = other;
    finish_one(mem, &mut block);
    let first = desk::hand_back(mem, &mut other);
    let kept = other == before;
    let own = desk::hand_back(mem, &mut block);
    say_number(rt, "refusal 105, another address: ", number(first).into())?;
    say_whether(rt, ", unwritten: ", kept)?;
    say_number(rt, "; its own block: ", number(own).into())?;
    say_code(rt, ", status ", status(own))?;
    say(rt, "h")?;
    let handed = own.is_ok() && status(own) == 0x02;
    end_line(rt, first == Err(NotHanded::NotItsBlock) && kept && handed)
}

// What a look sees, in words.
fn say_seen(rt: &impl Print, seen: Option<First>) -> io::Result<()> {
    let Some(first) = seen else {
        return rt.print(" nothing");
    };
    say_number(rt, " ticket ", first.ticket.0)?;
    say_number(rt, ", address ", first.address)?;
    say_number(rt, ", callback ", first.callback)?;
    say_whether(rt, ", wanted: ", first.wanted)
}

// A look that sees these.
fn sight(ticket: u32, address: u32, callback: u32, wanted: bool) -> Option<First> {
    Some(First {
        ticket: Ticket(ticket),
        address,
        callback,
        wanted,
    })
}

// Empty; the first of two finished, with its callback wanted; the second, with its callback disabled, whatever its value.
fn looks(rt: &impl Print, mem: &mut [u32; WORDS]) -> io::Result<bool> {
    let mut block = plain(0x10);
    block[29] = 1;
    let mut next = plain(0x11);
    next[12] = 0x08;
    next[28] = 7;
    desk::fresh(mem);
    let empty = desk::look(mem);
    finish_one(mem, &mut block);
    let _ = take(mem, &mut next, 1);
    let _ = desk::abort(mem, Ticket(2));
    let first = desk::look(mem);
    let _ = desk::hand_back(mem, &mut block);
    let second = desk::look(mem);
    say_whether(rt, "look: empty: ", empty.is_none())?;
    say(rt, "; then")?;
    say_seen(rt, first)?;
    say(rt, "; then")?;
    say_seen(rt, second)?;
    let both = first == sight(1, 0x1000, 0x100, true) && second == sight(2, 0x1100, 7, false);
    end_line(rt, empty.is_none() && both)
}

// The 12 CDB bytes are sent as they were when the request was taken in, though the block's changed since.
fn cdb_as_accepted(rt: &impl Print, mem: &mut [u32; WORDS]) -> io::Result<bool> {
    let mut block = plain(0x10);
    write_cdb(&mut block, &[1, 2, 3, 4, 5, 6, 7, 8, 9, 10, 11, 12]);
    desk::fresh(mem);
    let _ = take(mem, &mut block, 0);
    write_cdb(&mut block, &[0xFF; 12]);
    say(rt, "CDB as accepted:")?;
    let Some(sent) = desk::send(mem, 0, Unit(63)).answer.sent else {
        return end_line(rt, false);
    };
    let cdb = sent.cdb;
    say_word(rt, cdb.first)?;
    say_word(rt, cdb.second)?;
    say_word(rt, cdb.third)?;
    end_line(
        rt,
        cdb == Cdb {
            first: 0x04030201,
            second: 0x08070605,
            third: 0x0C0B0A09,
        },
    )
}

// 7 bytes lent: 15h, and nothing is written. 8 bytes: 15h too, and byte 7 says so, and no other.
fn few_bytes_lent(rt: &impl Print, mem: &mut [u32; WORDS]) -> io::Result<bool> {
    let mut seven = [0xA5u8; 7];
    let mut eight = [0xA5u8; 8];
    eight[6] = 0x01;
    let before = seven;
    let mut written = eight;
    written[7] = 0x15;
    desk::fresh(mem);
    let fewer = take(mem, &mut seven, 0);
    let kept = seven == before;
    let enough = take(mem, &mut eight, 0);
    let byte_7_alone = eight == written;
    say_code(rt, "lent 7 bytes: ", number(fewer))?;
    say_whether(rt, "h, unwritten: ", kept)?;
    say_code(rt, "; lent 8: ", number(enough))?;
    say_whether(rt, "h, byte 7 alone written: ", byte_7_alone)?;
    let refused = fewer == Err(Refusal::LengthInadequate) && enough == fewer;
    end_line(rt, refused && kept && byte_7_alone)
}

// 4,097 of 4,096 bytes moved: 52h, and the residual -1 in the block is FF FF FF FF. Of the other bytes none changes.
fn overrun(rt: &impl Print, mem: &mut [u32; WORDS]) -> io::Result<bool> {
    let mut block = plain(0x10);
    desk::fresh(mem);
    let _ = take(mem, &mut block, 0);
    desk::send(mem, 0, Unit(63));
    let complete = Event::Complete {
        status: 0x00,
        sense: Sense::None,
    };
    let _ = desk::report(mem, Ticket(1), complete, 4097);
    let mut written = block;
    written[7] = 0x52;
    written[56..60].copy_from_slice(&[0xFF; 4]);
    let back = desk::hand_back(mem, &mut block);
    let right = block == written;
    say_code(rt, "overrun: status ", status(back))?;
    say(rt, "h, bytes 56 to 59")?;
    for byte in &block[56..60] {
        say_code(rt, " ", *byte)?;
    }
    say_whether(rt, ", the whole block as expected: ", right)?;
    end_line(rt, status(back) == 0x52 && right)
}

// ---- the program

// How many of the eight cases are as expected.
fn run(rt: &impl Print, mem: &mut [u32; WORDS]) -> io::Result<usize> {
    let cases = [
        clock_wrap(rt, mem)?,
        last_ticket(rt, mem)?,
        too_short(rt, mem)?,
        another_address(rt, mem)?,
        looks(rt, mem)?,
        cdb_as_accepted(rt, mem)?,
        few_bytes_lent(rt, mem)?,
        overrun(rt, mem)?,
    ];
    Ok(cases.iter().filter(|right| **right).count())
}

// (The last line says how many were as expected.)
fn main(rt: HostRuntime) -> io::Result<()> {
    let mut mem = [0u32; WORDS];
    let right = run(&rt, &mut mem)?;
    println!(rt; "as expected: {right} of 8")
}
