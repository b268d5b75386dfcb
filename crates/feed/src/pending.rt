// What is read of the log and not yet answered.
ghost use Rattle.std.specs.Prelude.{◌≡◌, List, ℕ, [], ◌+◌, ◌≤◌, length, take, drop};
ghost use Rattle.std.specs.Io.KnownBytes.{Consumes};

use std::io::Read;
use std::marker::Model;

// Bytes of the log that can be pending: what is left of one line, and a piece behind it.
pub const INPUT: usize = 16384;

// A buffer, and how many of its bytes count. (It has with `Text` and `Output` what every such struct has; what may be done with it is its own.
// Its parts are open, so who has a piece of a log in memory knows which bytes are fed.)
#[derive(Clone, Drop)]
pub struct Pending {
    pub bytes: [u8; INPUT],
    pub length: usize,
}

// It is seen as those bytes.
impl Model for Pending {
    ghost Value = { List ℕ };

    ghost view = { λ p. take p.length p.bytes };

    ghost invariant = { λ p. p.length ≤ 16384 };
}

impl Pending {
    pub fn new() -> Pending
        ensures { result ≡ [] }
    {
        Pending {
            bytes: [0; INPUT],
            length: 0,
        }
    }

    // The first `end` of these bytes, or all of them: for who has a piece of a log in memory.
    pub fn of(bytes: [u8; INPUT], end: usize) -> Pending
        ensures { result ≡ take end bytes }
    {
        Pending {
            bytes,
            length: end.min(INPUT),
        }
    }

    // A piece of the log, behind what stands there, which stays as it is. Answers how many bytes came; they are the input's next ones. 0 at
    // the end of the input, with no room left, and where the input fails, which the program has never told apart (docs/DECISIONS.md).
    #[tactic(auto, using(crate::proofs::Reading::came))]
    pub fn read<R: Read>(&mut self, input: &mut R) -> usize
        ensures behind { (take (length self.old) self.new ≡ self.old) × (length self.new ≡ length self.old + result) }
        ensures came { Consumes (R.remaining input.old) (R.remaining input.new) (drop (length self.old) self.new) }
    {
        let n = input.read(&mut self.bytes[self.length..]).unwrap_or(0);
        self.length += n;
        n
    }

    pub(crate) fn as_slice(&self) -> &[u8]
        ensures { (result.now ≡ self.now) × (length self.now ≤ 16384) }
    {
        &self.bytes[..self.length]
    }

    // What stands from `at` on goes to the front: at most 401 bytes of it, since a longer line is not of the form whatever follows.
    pub(crate) fn keep_from(&mut self, at: usize)
        requires { at ≤ length self.old }
        ensures kept { self.new ≡ take 401 (drop at self.old) }
        ensures bound { length self.new ≤ 401 }
    {
        let over = (self.length - at).min(401);
        self.bytes.copy_within(at..at + over, 0);
        self.length = over;
    }
}
