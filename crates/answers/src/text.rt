// One line of text as it is written, and what a field of it may hold.
ghost use Rattle.std.specs.Prelude.{◌≡◌, List, ℕ, [], ◌∷◌, ◌++◌, ◌+◌, ◌≤◌, ◌<◌, length, take, Ok, Err};
ghost use Rattle.answers.specs.Answer.{places, decimal, signed, hex_digit, hex, refusal};

use itoa::write_digits;
use std::marker::Model;

// ---- the line

// 64 bytes, more than the longest line has, and how many of them are written. (So room is asked for where a part is written, and never
// tested.)
#[derive(Clone, Drop)]
pub struct Text {
    bytes: [u8; 64],
    length: usize,
}

// It is seen as the bytes that are written.
impl Model for Text {
    ghost Value = { List ℕ };

    ghost view = { λ t. take t.length t.bytes };

    ghost invariant = { λ t. t.length ≤ 64 };
}

impl Text {
    pub fn new() -> Text
        ensures { result ≡ [] }
    {
        Text {
            bytes: [0; 64],
            length: 0,
        }
    }

    // What is written.
    pub fn as_slice(&self) -> &[u8]
        ensures { (result.now ≡ self.now) × (length self.now ≤ 64) }
    {
        &self.all()[..self.length]
    }

    // All 64 bytes, for a reader that copies a known number of them: what is written comes first.
    pub fn all(&self) -> &[u8; 64]
        ensures { take (length self.now) result.now ≡ self.now }
    {
        &self.bytes
    }

    // The line anew, as these bytes.
    pub(crate) fn write(&mut self, s: &[u8])
        requires { length s.now ≤ 64 }
        ensures { self.new ≡ s.now }
    {
        self.bytes[..s.len()].copy_from_slice(s);
        self.length = s.len();
    }

    // The line anew, with its letter.
    pub(crate) fn begin(&mut self, letter: u8)
        ensures { self.new ≡ letter ∷ [] }
    {
        self.length = 0;
        self.push(letter);
    }

    pub(crate) fn push(&mut self, c: u8)
        requires { length self.old < 64 }
        ensures { self.new ≡ self.old ++ c ∷ [] }
    {
        self.bytes[self.length] = c;
        self.length += 1;
    }

    // A number, in at most 10 digits.
    fn decimal(&mut self, n: u32)
        requires { length self.old + 10 ≤ 64 }
        ensures { (self.new ≡ self.old ++ decimal n) × (length (decimal n) ≤ 10) }
    {
        let end = self.length + places_of(n);
        write_digits(u64::from(n), &mut self.bytes, end);
        self.length = end;
    }

    // A tab and a field. (Inlined, with `line`: else an answer takes a tenth longer.)
    #[inline]
    pub(crate) fn field<F: Field>(&mut self, f: F)
        requires { length self.old + 12 ≤ 64 }
        ensures { (self.new ≡ self.old ++ 9 ∷ F.shows f) × (length self.new ≤ length self.old + 12) }
    {
        self.push(b'\t');
        f.put(self);
    }
}

// ---- what a field holds

// The kit's `itoa` writes a number where it is to stand. (Its `Buffer`, and then a copy, was tried: an answer takes 23.1 ns with it, 16.5
// without. `write!` promises its bytes only where it answers Ok, and never that it does.)

// What a field holds: at most 11 bytes.
pub(crate) trait Field {
    ghost shows: { Self → List ℕ };

    fn put(self, text: &mut Text)
        requires { length text.old + 11 ≤ 64 }
        ensures { (text.new ≡ text.old ++ shows self) × (length (shows self) ≤ 11) };
}

// How many digits a number has.
#[tactic(auto, using(crate::proofs::Puts::places_by_log, crate::proofs::Puts::one_place))]
fn places_of(n: u32) -> usize
    ensures { (result ≡ places n) × (result ≤ 10) }
{
    n.checked_ilog10().map_or(1, |k| k as usize + 1)
}

// A number.
impl Field for u32 {
    ghost shows = { decimal };

    fn put(self, text: &mut Text) {
        text.decimal(self);
    }
}

// A number that may be below zero.
impl Field for i32 {
    ghost shows = { signed };

    #[tactic(auto, unfolding(crate::specs::Answer::signed))]
    fn put(self, text: &mut Text) {
        if self.is_negative() {
            text.push(b'-');
        }
        text.decimal(self.unsigned_abs());
    }
}

#[tactic(auto, unfolding(crate::specs::Answer::hex_digit))]
fn hex_digit(d: u8) -> u8
    requires { d < 16 }
    ensures { result ≡ hex_digit d }
{
    if d < 10 { b'0' + d } else { b'A' + (d - 10) }
}

// A code: two hex digits.
#[derive(Clone, Copy)]
pub(crate) struct Code(pub(crate) u8);

impl Field for Code {
    ghost shows = { λ c. hex c.0 };

    #[tactic(auto, unfolding(crate::specs::Answer::hex))]
    fn put(self, text: &mut Text) {
        // The place is read once: two pushes are slower.
        let at = text.length;
        text.bytes[at] = hex_digit(self.0 / 16);
        text.bytes[at + 1] = hex_digit(self.0 % 16);
        text.length = at + 2;
    }
}

// A number, or that of a refusal: two hex digits below 100.
impl Field for Result<u32, u8> {
    ghost shows = { λ r. elim r [ Ok n ↦ decimal n | Err why ↦ refusal why ] };

    #[tactic(auto, unfolding(crate::specs::Answer::refusal))]
    fn put(self, text: &mut Text) {
        match self {
            Ok(n) => n.put(text),
            Err(why) if why < 100 => Code(why).put(text),
            Err(why) => u32::from(why).put(text),
        }
    }
}
