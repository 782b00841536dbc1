//! A desk of a tracker of two. Just before it confirms its first flow, the other one confirms the same.

ghost use Rattle.std.specs.Prelude.{◌≡◌, ◌+◌, ◌≤◌, true, [], length, IfOk};
ghost use Rattle.history_book.specs.Places.{HoldsNothing};

use expect_table::expectation::Want;
use history_book::desk::Desk;
use history_book::event::{Note, Why};
use history_book::outcome::{
    ClaimOutcome, ConfirmOutcome, ExpectOutcome, FindOutcome, HoldOutcome, KillOutcome, LiveCount,
    PeekOutcome, ReleaseOutcome, TakeOutcome, TouchOutcome, UnexpectOutcome,
};
use history_book::record::Flow;
use history_book::report::Expectations;
use std::marker::Model;
use std::process::Abort;
use std::sync::Wait;
use tuple_core::{Direction, NoMemory, Segment, Tuple};

/// Two desks of one tracker, of which contracts see the first alone.
#[derive(Drop)]
pub struct Overtaken<D: Desk + Drop> {
    desk: D,
    other: D,
    /// The place that the other desk has taken and in which it has confirmed no flow yet.
    place: Option<u32>,
}

impl<D: Desk + Drop> Model for Overtaken<D> {
    ghost use Rattle.history_book.specs.Sight.{Sight};
    ghost use Rattle.desk_tests.specs.Overtaken.{CanOvertake};

    ghost Value = { Sight };

    ghost view = { λ d. D.sight d.desk };

    ghost invariant = { λ d. CanOvertake d.place (D.sight d.other) };
}

impl<D: Desk + Drop> Overtaken<D> {
    /// The second desk asks for room for one event, and takes a place.
    pub fn new<R: Wait + Abort>(rt: &R, desk: D, other: D) -> Result<Overtaken<D>, NoMemory>
        requires empty { HoldsNothing (D.sight desk) }
        requires other_empty { HoldsNothing (D.sight other) }
        ensures { IfOk result (λ d. HoldsNothing d) }
    {
        let mut other = other;
        assert!(rt; other.made() < 1000);
        other.ready(1)?;
        match other.take(rt) {
            TakeOutcome::Taken { place } => Ok(Overtaken {
                desk,
                other,
                place: Some(place),
            }),
            TakeOutcome::Full { .. } => panic!(rt; "no place is free"),
        }
    }
}

impl<D: Desk + Drop> Desk for Overtaken<D> {
    ghost sight = { λ d. d };

    fn places(&self) -> u32 {
        self.desk.places()
    }

    fn expect_room(&self) -> u32 {
        self.desk.expect_room()
    }

    fn made(&self) -> u64 {
        self.desk.made()
    }

    fn own(&self, index: u64) -> Note {
        self.desk.own(index)
    }

    fn ready(&mut self, k: u64) -> Result<(), NoMemory> {
        self.desk.ready(k)
    }

    fn find<R: Wait>(&mut self, rt: &R, t: &Tuple) -> FindOutcome {
        self.desk.find(rt, t)
    }

    fn count<R: Wait>(&mut self, rt: &R) -> LiveCount {
        self.desk.count(rt)
    }

    fn take<R: Wait>(&mut self, rt: &R) -> TakeOutcome {
        self.desk.take(rt)
    }

    fn confirm<R: Wait>(&mut self, rt: &R, place: u32, flow: &Flow) -> ConfirmOutcome {
        if let Some(other_place) = self.place {
            self.place = None;
            let _ = self.other.confirm(rt, other_place, flow);
        }
        self.desk.confirm(rt, place, flow)
    }

    fn touch<R: Wait>(
        &mut self,
        rt: &R,
        place: u32,
        direction: Direction,
        segment: Segment,
        moment: u64,
    ) -> TouchOutcome {
        self.desk.touch(rt, place, direction, segment, moment)
    }

    fn peek<R: Wait>(&mut self, rt: &R, place: u32) -> PeekOutcome {
        self.desk.peek(rt, place)
    }

    fn kill<R: Wait>(&mut self, rt: &R, place: u32, why: Why) -> KillOutcome {
        self.desk.kill(rt, place, why)
    }

    fn expect<R: Wait>(&mut self, rt: &R, place: u32, want: Want, moment: u64) -> ExpectOutcome {
        self.desk.expect(rt, place, want, moment)
    }

    fn claim<R: Wait>(&mut self, rt: &R, t: &Tuple, moment: u64) -> ClaimOutcome {
        self.desk.claim(rt, t, moment)
    }

    fn unexpect<R: Wait>(&mut self, rt: &R, id: u64, moment: u64) -> UnexpectOutcome {
        self.desk.unexpect(rt, id, moment)
    }

    fn expects<R: Wait>(&mut self, rt: &R, listed: &mut Expectations) -> u64 {
        self.desk.expects(rt, listed)
    }

    fn hold<R: Wait>(&mut self, rt: &R, place: u32) -> HoldOutcome {
        self.desk.hold(rt, place)
    }

    fn release<R: Wait>(&mut self, rt: &R, place: u32) -> ReleaseOutcome {
        self.desk.release(rt, place)
    }

    fn recycle<R: Wait>(&mut self, rt: &R, place: u32) {
        self.desk.recycle(rt, place);
    }
}
