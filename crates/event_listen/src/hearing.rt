//! The listener's end of a line.

ghost use Rattle.std.specs.Prelude.{◌≡◌, ◌<◌, length};
ghost use Rattle.event_listen.specs.Line.{IsHearingOf};

use crate::ear::Ear;
use crate::line::Line;
use ct_io::{Crossing, Gate};
use std::marker::Model;
use std::sync::Wait;
use std::thread;
use tuple_core::NoMemory;

/// The listener's end of a line, with what it has heard of each sender.
#[derive(Drop)]
pub struct Hearing {
    pub(crate) ears: Vec<Ear>,
}

impl Model for Hearing {
    ghost use Rattle.std.specs.Prelude.{List};
    ghost use Rattle.event_listen.specs.Line.{EarSight};

    ghost Value = { List EarSight };

    ghost view = { λ h. h.ears.items };
}

impl Hearing {
    /// Takes notes from the queues in turn, until it finds the line hushed and then each queue empty, and passes the gate
    /// after each of them. Where memory is wanting no note is lost: what was not heard is still in its queue.
    pub fn listen<G: Gate, R: Wait>(
        &mut self,
        rt: &R,
        line: &Line,
        gate: &G,
        worker: u32,
    ) -> Result<(), NoMemory>
        requires { IsHearingOf line.now self.old }
        ensures { IsHearingOf line.now self.new }
    {
        'rounds: for _ in rt.forever() {
            let is_hushed = line.is_hushed();
            if !self.hear_each(rt, line, gate, worker)? {
                if is_hushed {
                    return Ok(());
                }
                thread::yield_now();
            }
        }
        unreachable!()
    }

    /// Hears one note of each queue that has one, and says whether there was any.
    fn hear_each<G: Gate, R: Wait>(
        &mut self,
        rt: &R,
        line: &Line,
        gate: &G,
        worker: u32,
    ) -> Result<bool, NoMemory>
        requires { IsHearingOf line.now self.old }
        ensures { IsHearingOf line.now self.new }
    {
        let mut any = false;
        'ears: for sender in 0..line.senders() {
            if self.hear(rt, line, sender)? {
                gate.at(worker, Crossing::Heard);
                any = true;
            }
        }
        Ok(any)
    }

    /// Hears one note of a sender, and says whether there was one.
    fn hear<R: Wait>(&mut self, rt: &R, line: &Line, sender: usize) -> Result<bool, NoMemory>
        requires hearing { IsHearingOf line.now self.old }
        requires sender { sender < length line.now.queues }
        ensures { IsHearingOf line.now self.new }
    {
        self.ears[sender].hear(rt, line.queue(sender))
    }
}
