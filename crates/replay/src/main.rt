// The replay program: a log from standard input, its answers to standard output. It only moves bytes. What is answered, and what
// stands over from one read to the next, is `feed`'s; `run` is proved to hand it one piece after the other as `Through` asks
// (crates/feed/specs/Feeding.antt), so that by `WholeLog` what is written is the replay of what is read. (That the answers are written, in
// this order, no contract says: it is read here.) A piece is answered before the next one is read: a log can be piped in live.
#![tactic(auto)]

ghost use Rattle.std.specs.Prelude.{◌≡◌, []};
ghost use Rattle.replay_log.specs.Promise.{Begins};
ghost use Rattle.replay.specs.Progress.{Progress};

use answers::Text;
use feed::{Output, Pending};
use replay_log::Replay;
use std::io::{self, Read, Write};

// The log, piece by piece, until the input ends. It fails where the output takes no more. (The loop counts its turns up to a number
// that no log uses up, since nothing says that an input ends.)
#[tactic(auto, using(crate::proofs::Onward::begun, crate::proofs::Onward::onward))]
fn run(
    input: &mut impl Read,
    output: &mut impl Write,
    replay: &mut Replay,
    pending: &mut Pending,
    out: &mut Output,
) -> io::Result<()>
    requires { Begins replay.old × (pending.old ≡ []) }
    ensures { Progress replay.new pending.new }
{
    for _ in 0..u64::MAX {
        if pending.read(input) == 0 {
            return Ok(());
        }
        feed::feed(pending, replay, out);
        output.write_all(out.as_slice())?;
    }
    Err(io::ErrorKind::Other.into())
}

// The head line.
fn write_head(output: &mut impl Write) -> io::Result<()> {
    let mut text = Text::new();
    answers::head_line(&mut text);
    output.write_all(text.as_slice())
}

// The head line, the answers to the log, and at its end a last line that has no line feed. (The buffers are made before anything is
// written: else they are cleared twice.)
fn answer_log(input: &mut impl Read, output: &mut impl Write) -> io::Result<()> {
    let mut out = Output::new();
    let mut replay = Replay::new();
    let mut pending = Pending::new();
    write_head(output)?;
    run(input, output, &mut replay, &mut pending, &mut out)?;
    feed::finish(&pending, &mut replay, &mut out);
    output.write_all(out.as_slice())
}

// The exit status is 0 also where the output took no more.
fn main(rt: HostRuntime) {
    let _ = answer_log(&mut rt.stdin(), &mut rt.stdout());
}
