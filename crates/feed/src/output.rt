// The answers to a piece of the log.
ghost use Rattle.std.specs.Prelude.{◌≡◌, List, ℕ, [], ◌++◌, ◌+◌, ◌≤◌, length, take};

use answers::Text;
use std::marker::Model;

// Room for those to the most lines that can be pending: an answer has at most 64 bytes, and each answered line takes at least one of 16384.
pub const OUTPUT: usize = 1048576;

// A buffer, and how many of its bytes are written.
#[derive(Clone, Drop)]
pub struct Output {
    bytes: [u8; OUTPUT],
    length: usize,
}

// It is seen as those bytes.
impl Model for Output {
    ghost Value = { List ℕ };

    ghost view = { λ o. take o.length o.bytes };

    ghost invariant = { λ o. o.length ≤ 1048576 };
}

impl Output {
    pub fn new() -> Output
        ensures { result ≡ [] }
    {
        Output {
            bytes: [0; OUTPUT],
            length: 0,
        }
    }

    // What is written.
    pub fn as_slice(&self) -> &[u8]
        ensures { (result.now ≡ self.now) × (length self.now ≤ 1048576) }
    {
        &self.bytes[..self.length]
    }

    pub(crate) fn clear(&mut self)
        ensures { self.new ≡ [] }
    {
        self.length = 0;
    }

    // A text behind what is written. (All its 64 bytes are copied, a known number, and those that it has count.)
    pub(crate) fn append(&mut self, text: &Text)
        requires { length self.old + 64 ≤ 1048576 }
        ensures { (self.new ≡ self.old ++ text.now) × (length text.now ≤ 64) }
    {
        let at = self.length;
        self.bytes[at..at + 64].copy_from_slice(text.all());
        self.length = at + text.as_slice().len();
    }
}
