//! A desk of one pass of two, for tests. What the other pass does before a call of this one is told
//! beforehand.
#![tactic(auto, using(crate::proofs::BusyDesk::legal_seen))]

ghost use Rattle.std.specs.Prelude.{◌≡◌, ◌≤◌, ◌^◌, [], IfOk};
ghost use Rattle.proto_rules.specs.declared.Outcome.TheVariants.{Accept};
ghost use Rattle.proto_rules.specs.Step.{step_of};

use book_desk::desk::PlainDesk;
use expect_table::expectation::Want;
use history_book::desk::Desk;
use history_book::event::{Event, Note, Why};
use history_book::laws::entries_keep_helper_and_zone;
use history_book::legality::expectation_at;
use history_book::outcome::{
    ClaimOutcome, ConfirmOutcome, ExpectOutcome, FindOutcome, HoldOutcome, KillOutcome, LiveCount,
    PeekOutcome, ReleaseOutcome, TakeOutcome, TouchOutcome, UnexpectOutcome,
};
use history_book::record::{Flow, Record};
use history_book::report::{Expectations, Notes};
use proto_rules::{Outcome, Part, is_of_protocol, step};
use stage::{Call, Script, Stage};
use std::alloc::Global;
use std::marker::Model;
use std::sync::Wait;
use tuple_core::{Direction, NoMemory, Segment, Tuple};

/// One pass of two. Of the events of the one history that it sees some are the other pass's.
#[derive(Drop)]
struct BusyDesk {
    stage: Stage,
    /// This pass's own events.
    notes: Notes,
    /// For how many further own events there is room.
    spare: u64,
    /// How many times this pass took a place.
    taken: u64,
}

impl Model for BusyDesk {
    ghost use Rattle.history_book.specs.Sight.{Sight};
    ghost use Rattle.desk_tests.specs.Busy.{IsBusy, seen_by};

    ghost Value = { Sight };

    ghost view = { λ b. seen_by b.taken b.stage.desk b.notes.items b.spare };

    ghost invariant = { λ b. IsBusy b.stage.desk b.notes.items b.notes.room b.spare b.stage.others };
}

impl BusyDesk {
    /// A desk that made no event and keeps no place. The other pass does this, and makes at most `others`
    /// events.
    fn new(alloc: Global, script: Script, others: u64) -> Result<BusyDesk, NoMemory>
        requires { others ≤ 1000 }
        ensures held { IfOk result (λ b. b.held ≡ []) }
        ensures owed { IfOk result (λ b. b.owed ≡ []) }
    {
        let stage = Stage::new(alloc, script, others)?;
        let notes = Notes::new(alloc, 0)?;
        Ok(BusyDesk {
            stage,
            notes,
            spare: 0,
            taken: 0,
        })
    }
}

/// What the entry becomes by a packet that it accepted.
fn part_after<R: Wait>(
    rt: &R,
    before: &Record,
    direction: Direction,
    segment: Segment,
    moment: u64,
) -> Part
    requires { moment ≤ 10 ^ 16 }
    ensures { step_of before.now.part direction segment moment ≡ Accept result }
{
    if is_of_protocol(segment, before.part.kind) {
        if let Outcome::Accept(after) = step(&before.part, direction, segment, moment) {
            return after;
        }
    }
    for _ in rt.forever() {}
    unreachable!()
}

impl Desk for BusyDesk {
    ghost sight = { λ d. d };

    fn places(&self) -> u32 {
        self.stage.desk.places()
    }

    fn expect_room(&self) -> u32 {
        self.stage.desk.expect_room()
    }

    fn made(&self) -> u64 {
        self.notes.len() as u64
    }

    fn own(&self, index: u64) -> Note {
        self.notes.at(index as usize)
    }

    fn ready(&mut self, k: u64) -> Result<(), NoMemory> {
        if self.spare >= k {
            return Ok(());
        }
        let total = k + self.stage.others;
        if self.stage.desk.made() + total > 1 << 30 {
            return Err(NoMemory);
        }
        self.notes.reserve(k as usize)?;
        self.stage.desk.ready(total)?;
        self.spare = k;
        Ok(())
    }

    fn find<R: Wait>(&mut self, rt: &R, t: &Tuple) -> FindOutcome {
        self.stage.other_begins(rt, Call::Find);
        self.stage.desk.find(rt, t)
    }

    fn count<R: Wait>(&mut self, rt: &R) -> LiveCount {
        self.stage.desk.count(rt)
    }

    fn take<R: Wait>(&mut self, rt: &R) -> TakeOutcome {
        self.stage.other_begins(rt, Call::Take);
        let outcome = self.stage.desk.take(rt);
        match outcome {
            TakeOutcome::Full { .. } => outcome,
            TakeOutcome::Taken { .. } => {
                self.taken = self.taken.saturating_add(1);
                outcome
            }
        }
    }

    fn confirm<R: Wait>(&mut self, rt: &R, place: u32, flow: &Flow) -> ConfirmOutcome {
        let outcome = self.stage.desk.confirm(rt, place, flow);
        match outcome {
            ConfirmOutcome::Clash { .. } => outcome,
            ConfirmOutcome::Confirmed { id } => {
                let subject = Record {
                    id,
                    place,
                    original: flow.original,
                    reply: flow.reply,
                    part: flow.part,
                    helper: flow.helper,
                    master: flow.master,
                };
                self.notes.push(Note {
                    number: id,
                    event: Event::Confirm { subject },
                });
                self.spare -= 1;
                outcome
            }
        }
    }

    fn touch<R: Wait>(
        &mut self,
        rt: &R,
        place: u32,
        direction: Direction,
        segment: Segment,
        moment: u64,
    ) -> TouchOutcome {
        self.stage.other_meets(rt, Call::Touch, place);
        let outcome = self.stage.desk.touch(rt, place, direction, segment, moment);
        match outcome {
            TouchOutcome::Touched { number, before } => {
                let after = part_after(rt, &before, direction, segment, moment);
                self.notes.push(Note {
                    number,
                    event: Event::Touch {
                        id: before.id,
                        direction,
                        segment,
                        moment,
                        after,
                    },
                });
                self.spare -= 1;
                outcome
            }
            TouchOutcome::Ignored { .. } => outcome,
            TouchOutcome::Invalid { .. } => outcome,
            TouchOutcome::Reopen { .. } => outcome,
            TouchOutcome::Reset { .. } => outcome,
            TouchOutcome::Expired { .. } => outcome,
            TouchOutcome::Gone { .. } => outcome,
        }
    }

    fn peek<R: Wait>(&mut self, rt: &R, place: u32) -> PeekOutcome {
        self.stage.desk.peek(rt, place)
    }

    fn kill<R: Wait>(&mut self, rt: &R, place: u32, why: Why) -> KillOutcome {
        self.stage.other_meets(rt, Call::Kill, place);
        let outcome = self.stage.desk.kill(rt, place, why);
        match outcome {
            KillOutcome::Killed { number, subject } => {
                self.notes.push(Note {
                    number,
                    event: Event::Destroy {
                        id: subject.id,
                        why,
                    },
                });
                self.spare -= 1;
                outcome
            }
            KillOutcome::Gone { .. } => outcome,
            KillOutcome::Not { .. } => outcome,
        }
    }

    fn expect<R: Wait>(&mut self, rt: &R, place: u32, want: Want, moment: u64) -> ExpectOutcome {
        self.stage.other_meets(rt, Call::Expect, place);
        entries_keep_helper_and_zone();
        // The event names the entry and its zone, which this call gives by its place alone.
        let (master, zone) = match self.stage.desk.peek(rt, place) {
            PeekOutcome::Gone { at } => return ExpectOutcome::MasterGone { at },
            PeekOutcome::Seen { subject, .. } => (subject.id, subject.original.zone),
        };
        let outcome = self.stage.desk.expect(rt, place, want, moment);
        match outcome {
            ExpectOutcome::Expected { id, replaced } => {
                self.notes.push(Note {
                    number: id,
                    event: Event::Expect {
                        expectation: expectation_at(id, master, zone, want, moment),
                        replaced,
                        moment,
                    },
                });
                self.spare -= 1;
                outcome
            }
            ExpectOutcome::MasterGone { .. } => outcome,
            ExpectOutcome::Clash { .. } => outcome,
            ExpectOutcome::ExpectFull { .. } => outcome,
        }
    }

    fn claim<R: Wait>(&mut self, rt: &R, t: &Tuple, moment: u64) -> ClaimOutcome {
        self.stage.other_claims(rt);
        let outcome = self.stage.desk.claim(rt, t, moment);
        match outcome {
            ClaimOutcome::Unclaimed { .. } => outcome,
            ClaimOutcome::Claimed {
                number,
                expectation,
                master,
            } => {
                self.notes.push(Note {
                    number,
                    event: Event::Claim {
                        expectation,
                        master,
                        tuple: *t,
                        moment,
                    },
                });
                self.spare -= 1;
                outcome
            }
        }
    }

    fn unexpect<R: Wait>(&mut self, rt: &R, id: u64, moment: u64) -> UnexpectOutcome {
        let outcome = self.stage.desk.unexpect(rt, id, moment);
        match outcome {
            UnexpectOutcome::Removed { number } => {
                self.notes.push(Note {
                    number,
                    event: Event::Unexpect {
                        expectation: id,
                        moment,
                    },
                });
                self.spare -= 1;
                outcome
            }
            UnexpectOutcome::Gone { .. } => outcome,
            UnexpectOutcome::Not { .. } => outcome,
        }
    }

    fn expects<R: Wait>(&mut self, rt: &R, listed: &mut Expectations) -> u64 {
        self.stage.desk.expects(rt, listed)
    }

    fn hold<R: Wait>(&mut self, rt: &R, place: u32) -> HoldOutcome {
        self.stage.desk.hold(rt, place)
    }

    fn release<R: Wait>(&mut self, rt: &R, place: u32) -> ReleaseOutcome {
        self.stage.desk.release(rt, place)
    }

    fn recycle<R: Wait>(&mut self, rt: &R, place: u32) {
        self.stage.desk.recycle(rt, place);
    }
}

mod stage;
mod tests;
