// A replay's log that comes piece by piece: its whole lines answered, and what stands over of a line kept for the next piece.
#![tactic(auto)]

ghost use Rattle.std.specs.Prelude.{◌+◌, ◌*◌, ◌≤◌, length};
ghost use Rattle.feed.specs.Feeding.{Feeds, Ends};
ghost use Rattle.feed.specs.LineEnds.{Clear, Appends, SoFar};

mod output;
mod pending;

use answers::Text;
use memchr::memchr;
pub use output::{OUTPUT, Output};
pub use pending::{INPUT, Pending};
use replay_log::Replay;

// ---- whole lines

// One line, answered behind what is written.
fn append(line: &[u8], replay: &mut Replay, out: &mut Output)
    requires { length out.old + 64 ≤ 1048576 }
    ensures { Appends replay.old replay.new line.now out.old out.new }
{
    let mut text = Text::new();
    replay.answer_line(line, &mut text);
    out.append(&text);
}

// Every whole line of s, answered in an output that begins anew: where the first line that has not ended begins. (A `while let`: an iterator over
// the line feeds would still need the number beside it, where the line begins.)
fn whole_lines(s: &[u8], replay: &mut Replay, out: &mut Output) -> usize
    requires { length s.now ≤ 16384 }
    ensures so_far { SoFar replay.old replay.new s.now result out.new }
    ensures at_in_bounds { (result ≤ length s.now) × Clear s.now result (length s.now) × (length out.new ≤ 64 * result) }
{
    out.clear();
    let mut at = 0;
    while let Some(n) = memchr(b'\n', &s[at..]) {
        append(&s[at..at + n], replay, out);
        at += n + 1;
    }
    at
}

// ---- a piece of the log. (The replay, its input and its output are lent apart, as the program reads into one and writes from another.)

// What is read, behind what stood over before: its whole lines are answered, and what stands over of it then is still pending.
#[tactic(auto, using(crate::proofs::Lining::fed_piece))]
pub fn feed(pending: &mut Pending, replay: &mut Replay, out: &mut Output)
    ensures feeds { Feeds replay.old replay.new pending.old pending.new out.new }
    ensures bounds { (length pending.new ≤ 401) × (length out.new ≤ 1048576) }
{
    let at = whole_lines(pending.as_slice(), replay, out);
    pending.keep_from(at);
}

// ---- the end of the log

// The end of the input: what stands over, if anything does, is a last line that has no line feed.
pub fn finish(pending: &Pending, replay: &mut Replay, out: &mut Output)
    ensures { Ends replay.old pending.now out.new × (length out.new ≤ 64) }
{
    let line = pending.as_slice();
    out.clear();
    if !line.is_empty() {
        append(line, replay, out);
    }
}
