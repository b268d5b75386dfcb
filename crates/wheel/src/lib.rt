// The clock and the rotation mark as one small record, lent by `&mut` and altered where it lies: a tick changes the clock, a send the
// mark, and nothing else of it. The core, which takes the clock and the mark by value, is the desk's `tick` and `send`.
#![tactic(auto)]

ghost use Rattle.wheel.specs.Turned.{Ticks, Sends};

use board::{Sending, Unit};
use rows::WORDS;

// The clock, and the rotation mark as a unit's number.
#[repr(C)]
#[derive(Clone, Copy)]
pub struct Wheel {
    pub clock: u32,
    pub mark: u8,
}

// Tick: the clock moves on, and the mark stays. Answers the clock.
pub fn tick(mem: &mut [u32; WORDS], wheel: &mut Wheel) -> u32
    ensures { Ticks mem.old mem.new wheel.old wheel.new result }
{
    wheel.clock = desk::tick(mem, wheel.clock);
    wheel.clock
}

// Send: the mark becomes the unit that was sent to, or stays, and so does the clock.
pub fn send(mem: &mut [u32; WORDS], wheel: &mut Wheel) -> Sending
    ensures { Sends mem.old mem.new wheel.old wheel.new result }
{
    let answer = desk::send(mem, wheel.clock, Unit(wheel.mark)).answer;
    if let Some(sent) = answer.sent {
        wheel.mark = sent.unit.0;
    }
    answer
}
