// One record of the replay's log: a line's bytes to a record. The types, then single fields, events, blocks, the line.
#![tactic(auto)]

ghost use Rattle.std.specs.Prelude.{◌≡◌, true, ◌∷◌, [], ◌+◌, ◌*◌, ◌≤◌, ◌<◌, ◌==◌, length, position, MatchOption};
ghost use Rattle.std.specs.Result.{result_ok};
ghost use Rattle.std.proofs.lemmas.List.Edits.{sets};
ghost use Rattle.lines.specs.Text.{fields, is_hex, hex_value, number, with_digit, more, all_hex, bytes, code};
ghost use Rattle.lines.specs.Record.{told, parse, record_of, Parsed, by_letter, of_block, numbered, event_of, kind, named, sense};

use board::{Event, Sense, Ticket};

// A record. The bytes of a submitted block stand at the start of the lent array; here is how many they are. A unit may be
// any number, since the desk is to refuse those above 63. (A number and no slice: taking in writes to the block.)
#[derive(Clone, Copy)]
pub enum Line {
    Submit(usize),
    Send,
    Event(Ticket, Event, u32),
    Abort(Ticket),
    Freeze(u32),
    Release(u32),
    Tick,
    Reset,
    HandBack,
}

// A line that is not of the form.
#[derive(Clone, Copy, Debug, PartialEq, Eq)]
pub struct Malformed;

// The kind of an event. The two further fields of a "complete" are yet to be read. (No Option: a "complete" is a kind too.)
#[derive(Clone, Copy)]
enum Kind {
    Plain(Event),
    Completed,
}

// ---- single fields

// Where the first tab is.
fn first_tab(s: &[u8]) -> Option<usize>
    ensures { result ≡ position (λ c. c == 9) s.now }
{
    s.iter().position(|c| *c == b'\t')
}

// The first field, and what follows its tab.
#[tactic(auto, using(crate::proofs::Texts::fields_one, crate::proofs::Texts::fields_split))]
fn split(s: &[u8]) -> Option<(&[u8], &[u8])>
    ensures { MatchOption result (fields s.now ≡ s.now ∷ []) (λ p. fields s.now ≡ p.0.now ∷ fields p.1.now) }
{
    let tab = first_tab(s)?;
    Some((&s[..tab], &s[tab + 1..]))
}

// The number with n's digits and then this one.
fn with_digit(n: u32, c: u8) -> Option<u32>
    ensures { result ≡ with_digit n c }
{
    if !c.is_ascii_digit() {
        return None;
    }
    n.checked_mul(10)?.checked_add(u32::from(c - b'0'))
}

// The number that these decimal digits make; leading zeros are not looked for.
#[tactic(auto, using(crate::proofs::Texts::more_at, crate::proofs::Texts::more_end))]
fn digits(s: &[u8]) -> Option<u32>
    ensures { result ≡ more 0 s.now }
{
    let mut n = 0;
    for c in s {
        n = with_digit(n, *c)?;
    }
    Some(n)
}

// A decimal number, 0 to 4294967295, no leading zeros.
#[tactic(auto, using(crate::proofs::Texts::numbers))]
fn read_number(s: &[u8]) -> Option<u32>
    ensures { result ≡ number s.now }
{
    match s {
        [] => None,
        [b'0', _, ..] => None,
        _ => digits(s),
    }
}

// An upper-case hex digit. Of two tests with `|`, since one `matches!` of both ranges is slower.
fn is_hex(c: u8) -> bool
    ensures { result ≡ is_hex c }
{
    c.is_ascii_digit() | matches!(c, b'A'..=b'F')
}

// The value of a hex digit. With no branch in it, so that a whole block is decoded many digits at a time.
#[tactic(auto, using(crate::proofs::Texts::digit_value))]
fn hex_digit(c: u8) -> u8
    requires { is_hex c ≡ true }
    ensures value { result ≡ hex_value c }
    ensures small { result < 16 }
{
    c % 16 + 9 * (c / 64)
}

// The byte of two hex digits.
fn byte(high: u8, low: u8) -> u8
    requires high { is_hex high ≡ true }
    requires low { is_hex low ≡ true }
    ensures { result ≡ hex_value high * 16 + hex_value low }
{
    hex_digit(high) * 16 + hex_digit(low)
}

// A code: two hex digits.
#[tactic(auto, unfolding(crate::specs::Text::code))]
fn read_code(s: &[u8]) -> Option<u8>
    ensures { result ≡ code s.now }
{
    match s {
        [high, low] if is_hex(*high) && is_hex(*low) => Some(byte(*high, *low)),
        _ => None,
    }
}

// ---- an event

// The kind that a code names.
fn named(code: u8) -> Option<Kind>
    ensures { result ≡ named code }
{
    Event::try_from(u32::from(code)).ok().map(Kind::Plain)
}

// The kind of an event: K, C or a code.
#[tactic(auto, using(crate::proofs::Texts::kinds))]
fn read_kind(s: &[u8]) -> Option<Kind>
    ensures { result ≡ kind s.now }
{
    match s {
        [b'K'] => Some(Kind::Plain(Event::AbortDone)),
        [b'C'] => Some(Kind::Completed),
        _ => read_code(s).and_then(named),
    }
}

// What became of the sense: X failed, - none, or how many bytes came.
#[tactic(auto, using(crate::proofs::Texts::senses), unfolding(crate::specs::Record::byte_sense))]
fn read_sense(s: &[u8]) -> Option<Sense>
    ensures { result ≡ sense s.now }
{
    match s {
        [b'X'] => Some(Sense::Failed),
        [b'-'] => Some(Sense::None),
        _ => u8::try_from(read_number(s)?).ok().map(Sense::Bytes),
    }
}

// What follows the letter E and a tab. The last field is all that is left: with a tab in it, it is no number and no sense.
#[tactic(auto, using(crate::proofs::Records::events))]
fn read_event(s: &[u8]) -> Option<Line>
    ensures { result ≡ told (event_of (fields s.now)) }
{
    let (ticket, s) = split(s)?;
    let (kind, s) = split(s)?;
    let ticket = Ticket(read_number(ticket)?);
    match read_kind(kind)? {
        Kind::Plain(event) => Some(Line::Event(ticket, event, read_number(s)?)),
        Kind::Completed => {
            let (moved, s) = split(s)?;
            let (status, sense) = split(s)?;
            let moved = read_number(moved)?;
            let status = read_code(status)?;
            let sense = read_sense(sense)?;
            Some(Line::Event(ticket, Event::Complete { status, sense }, moved))
        }
    }
}

// ---- a block

// Whether all are hex digits. It looks at each, where `all` would stop at the first that is none, so that a whole block
// is looked at many digits at a time.
#[tactic(auto, using(crate::proofs::Texts::hex_next, crate::proofs::Texts::hex_end))]
fn all_hex(s: &[u8]) -> bool
    ensures { result ≡ all_hex s.now }
{
    let mut ok = true;
    for c in s {
        ok &= is_hex(*c);
    }
    ok
}

// The bytes that these hex digits make, two to a byte, to the start of the lent array. (At most 400 digits are asked for: `parse_line` alone
// tests it. A `zip` of `chunks_exact` was tried, and its proof didn't close.)
#[tactic(auto, using(crate::proofs::Texts::hex_at, crate::proofs::Texts::decode_next, crate::proofs::Texts::decode_end))]
fn decode(s: &[u8], block: &mut [u8; 200])
    requires { (length s.now ≤ 400) × (all_hex s.now ≡ true) }
    ensures { block.new ≡ sets block.old 0 (bytes s.now) }
{
    for i in 0..s.len() / 2 {
        block[i] = byte(s[2 * i], s[2 * i + 1]);
    }
}

// What follows the letter S and a tab. All the digits are looked at before any byte is stored.
#[tactic(auto, using(crate::proofs::Records::block_odd, crate::proofs::Records::block_bad))]
fn read_block(s: &[u8], block: &mut [u8; 200]) -> Option<Line>
    requires { length s.now ≤ 400 }
    ensures { Parsed (of_block s.now) block.old block.new result }
{
    if s.len() % 2 != 0 || !all_hex(s) {
        return None;
    }
    decode(s, block);
    Some(Line::Submit(s.len() / 2))
}

// ---- the line

// A letter with no field after it.
#[tactic(auto, unfolding(crate::specs::Record::by_letter, crate::specs::Record::numbered, crate::specs::Record::event_of))]
fn alone(letter: u8) -> Option<Line>
    ensures { result ≡ told (by_letter letter []) }
{
    match letter {
        b'N' => Some(Line::Send),
        b'T' => Some(Line::Tick),
        b'B' => Some(Line::Reset),
        b'H' => Some(Line::HandBack),
        _ => None,
    }
}

// A letter with one number after it.
#[tactic(auto, unfolding(crate::specs::Record::numbered))]
fn with_number(letter: u8, n: u32) -> Option<Line>
    ensures { result ≡ told (numbered letter n) }
{
    match letter {
        b'A' => Some(Line::Abort(Ticket(n))),
        b'F' => Some(Line::Freeze(n)),
        b'R' => Some(Line::Release(n)),
        _ => None,
    }
}

// A line of at most 400 bytes.
#[tactic(auto, using(crate::proofs::Records::line_none, crate::proofs::Records::line_bad))]
fn read_line(line: &[u8], block: &mut [u8; 200]) -> Option<Line>
    requires { length line.now ≤ 400 }
    ensures { Parsed (record_of (fields line.now)) block.old block.new result }
{
    match line {
        [letter] => alone(*letter),
        [b'S', b'\t', digits @ ..] => read_block(digits, block),
        [b'E', b'\t', event @ ..] => read_event(event),
        [letter, b'\t', number @ ..] => with_number(*letter, read_number(number)?),
        _ => None,
    }
}

// One line, without its line feed, as a record. The bytes of a block go to the start of the lent array.
#[tactic(auto, using(crate::proofs::Overlong::parse_long, crate::proofs::Records::parse_short))]
pub fn parse_line(line: &[u8], block: &mut [u8; 200]) -> Result<Line, Malformed>
    ensures { Parsed (parse line.now) block.old block.new (result_ok result) }
{
    if 400 < line.len() {
        return Err(Malformed);
    }
    read_line(line, block).ok_or(Malformed)
}
