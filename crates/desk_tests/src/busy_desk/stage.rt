//! The tracker that the two passes share, and what the other pass does to it.

ghost use Rattle.std.specs.Prelude.{◌≡◌, ◌+◌, ◌≤◌, [], length, true, IfOk};
ghost use Rattle.history_book.specs.Entry.{is_lawful_flow};
ghost use Rattle.history_book.specs.Held.{is_held_for_entry};
ghost use Rattle.history_book.specs.Sight.{IsKnown};
ghost use Rattle.history_book.specs.Sizes.{AreWithinLimits};
ghost use Rattle.desk_tests.specs.Busy.{Went};

use book_desk::desk::PlainDesk;
use expect_table::expectation::Want;
use history_book::desk::Desk;
use history_book::event::Why;
use history_book::laws::{entries_keep_helper_and_zone, entries_keep_their_protocol};
use history_book::outcome::{FindOutcome, PeekOutcome, TakeOutcome};
use history_book::places::give_back;
use history_book::record::Flow;
use history_book::sizes::Sizes;
use proto_rules::{is_of_protocol, proto_of};
use room_list::RoomList;
use std::alloc::Global;
use std::sync::Wait;
use tuple_core::{Direction, NoMemory, Segment, Tuple, is_valid};

/// A call of this pass, before which the other pass may do something.
#[derive(Clone, Copy, PartialEq, Eq)]
pub enum Call {
    Find,
    Take,
    Touch,
    Kill,
    Expect,
    Claim,
}

/// What the other pass does. The entry of a call is that of a `Touch`, a `Kill` or an `Expect`. Before those this
/// pass may have no room for a further place, so that the other then expects something for that entry alone;
/// and it confirms a flow before `Find` and `Take` alone.
#[derive(Clone, Copy)]
pub enum Act {
    Nothing,
    /// It confirms this flow, if nothing has a tuple of it.
    Confirm(Flow),
    /// It destroys the entry of the call, if that is expired at this moment.
    Expire(u64),
    /// It touches the entry of the call with this packet.
    Touch {
        direction: Direction,
        segment: Segment,
        moment: u64,
    },
    /// It expects this for what is live under the tuple, if that has the helper.
    Expect {
        master: Tuple,
        want: Want,
        moment: u64,
    },
    /// It claims what a packet with this tuple would, before any call.
    Claim {
        tuple: Tuple,
        moment: u64,
    },
}

/// What the other pass does before the next call of a kind.
#[derive(Clone, Copy)]
pub struct Turn {
    pub before: Call,
    pub act: Act,
}

/// What the other pass does, in order. Each turn is taken before the first call of its kind after the
/// turn before it.
pub type Script = RoomList<Turn>;

/// A pool of four places and room for two expectations, for two passes.
fn sizes() -> Sizes
    ensures { AreWithinLimits result }
{
    Sizes {
        entries: 4,
        buckets: 1,
        seed: 0,
        passes: 2,
        expectations: 2,
    }
}

/// The tracker, and what the other pass is yet to do.
#[derive(Drop)]
pub struct Stage {
    pub desk: PlainDesk,
    script: Script,
    /// How many turns were taken.
    taken: usize,
    /// How many events the other pass may yet make.
    pub others: u64,
}

/// Whether both tuples of the flow are valid, of one zone, and of the protocol of its part.
fn is_lawful_flow(flow: &Flow) -> bool
    ensures { result ≡ is_lawful_flow flow.now }
{
    let proto = proto_of(flow.part.kind);
    is_valid(&flow.original)
        && is_valid(&flow.reply)
        && flow.reply.zone == flow.original.zone
        && flow.original.proto == proto
        && flow.reply.proto == proto
}

impl Stage {
    /// A tracker without an event.
    pub fn new(alloc: Global, script: Script, others: u64) -> Result<Stage, NoMemory>
        requires { others ≤ 1000 }
        ensures known { IfOk result (λ s. IsKnown s.desk) }
        ensures lone { IfOk result (λ s. s.desk.sizes.passes ≡ 1) }
        ensures others { IfOk result (λ s. s.others ≤ s.desk.spare) }
        ensures held { IfOk result (λ s. s.desk.held ≡ []) }
        ensures owed { IfOk result (λ s. s.desk.owed ≡ []) }
    {
        let mut desk = PlainDesk::new(alloc, sizes())?;
        desk.ready(others)?;
        Ok(Stage {
            desk,
            script,
            taken: 0,
            others,
        })
    }

    /// The other pass's turn, if its next one is before this call.
    fn turn(&mut self, call: Call) -> Act
        ensures { self.new ≡ record self.old { taken = self.new.taken } }
    {
        if self.taken >= self.script.len() {
            return Act::Nothing;
        }
        let turn = *self.script.at(self.taken);
        if turn.before != call {
            return Act::Nothing;
        }
        self.taken += 1;
        turn.act
    }

    /// The other pass's turn before this pass looks a flow up or takes a place.
    pub fn other_begins<R: Wait>(&mut self, rt: &R, call: Call)
        requires known { IsKnown self.old.desk }
        requires left { self.old.others ≤ self.old.desk.spare }
        requires room { length self.old.desk.held + length self.old.desk.owed ≤ 3 }
        ensures { Went self.old.desk self.new.desk self.old.others self.new.others }
    {
        if self.others == 0 {
            return;
        }
        match self.turn(call) {
            Act::Nothing | Act::Expire(_) | Act::Touch { .. } => {}
            Act::Confirm(flow) => {
                self.others -= 1;
                confirm(rt, &mut self.desk, &flow);
            }
            Act::Expect {
                master,
                want,
                moment,
            } => {
                self.others -= 1;
                expect(rt, &mut self.desk, &master, want, moment);
            }
            Act::Claim { tuple, moment } => {
                self.others -= 1;
                let _ = self.desk.claim(rt, &tuple, moment);
            }
        }
    }

    /// The other pass's turn before this pass claims an expectation.
    pub fn other_claims<R: Wait>(&mut self, rt: &R)
        requires known { IsKnown self.old.desk }
        requires left { self.old.others ≤ self.old.desk.spare }
        ensures { Went self.old.desk self.new.desk self.old.others self.new.others }
    {
        if self.others == 0 {
            return;
        }
        if let Act::Claim { tuple, moment } = self.turn(Call::Claim) {
            self.others -= 1;
            let _ = self.desk.claim(rt, &tuple, moment);
        }
    }

    /// The other pass's turn before this pass does something with the entry for which a place is held.
    pub fn other_meets<R: Wait>(&mut self, rt: &R, call: Call, place: u32)
        requires known { IsKnown self.old.desk }
        requires left { self.old.others ≤ self.old.desk.spare }
        requires held { is_held_for_entry place self.old.desk.held ≡ true }
        ensures { Went self.old.desk self.new.desk self.old.others self.new.others }
    {
        if self.others == 0 {
            return;
        }
        match self.turn(call) {
            Act::Nothing | Act::Confirm(_) => {}
            Act::Expire(moment) => {
                self.others -= 1;
                let _ = self.desk.kill(rt, place, Why::Expired { moment });
            }
            Act::Touch {
                direction,
                segment,
                moment,
            } => {
                self.others -= 1;
                touch(rt, &mut self.desk, place, direction, segment, moment);
            }
            Act::Expect {
                master,
                want,
                moment,
            } => {
                self.others -= 1;
                expect_for(rt, &mut self.desk, place, &master, want, moment);
            }
            Act::Claim { tuple, moment } => {
                self.others -= 1;
                let _ = self.desk.claim(rt, &tuple, moment);
            }
        }
    }
}

/// Confirms a flow, and keeps no place.
fn confirm<R: Wait>(rt: &R, desk: &mut PlainDesk, flow: &Flow)
    requires known { IsKnown desk.old }
    requires spare { 1 ≤ desk.old.spare }
    requires room { length desk.old.held + length desk.old.owed ≤ 3 }
    ensures { Went desk.old desk.new 1 0 }
{
    if !is_lawful_flow(flow) {
        return;
    }
    let TakeOutcome::Taken { place } = desk.take(rt) else {
        return;
    };
    let _ = desk.confirm(rt, place, flow);
    give_back(rt, desk, place);
}

/// Touches the entry for which a place is held, if the packet is of its protocol.
fn touch<R: Wait>(
    rt: &R,
    desk: &mut PlainDesk,
    place: u32,
    direction: Direction,
    segment: Segment,
    moment: u64,
)
    requires known { IsKnown desk.old }
    requires spare { 1 ≤ desk.old.spare }
    requires held { is_held_for_entry place desk.old.held ≡ true }
    ensures { Went desk.old desk.new 1 0 }
{
    entries_keep_their_protocol();
    let PeekOutcome::Seen { subject, .. } = desk.peek(rt, place) else {
        return;
    };
    if moment > 10_000_000_000_000_000 || !is_of_protocol(segment, subject.part.kind) {
        return;
    }
    let _ = desk.touch(rt, place, direction, segment, moment);
}

/// Expects something for what is live under the tuple, if that has the helper, and keeps no place.
fn expect<R: Wait>(rt: &R, desk: &mut PlainDesk, master: &Tuple, want: Want, moment: u64)
    requires known { IsKnown desk.old }
    requires spare { 1 ≤ desk.old.spare }
    requires room { length desk.old.held + length desk.old.owed ≤ 3 }
    ensures { Went desk.old desk.new 1 0 }
{
    let FindOutcome::Found { place, .. } = desk.find(rt, master) else {
        return;
    };
    expect_for(rt, desk, place, master, want, moment);
    give_back(rt, desk, place);
}

/// Expects something for the entry for which a place is held, if it has the tuple and the helper.
fn expect_for<R: Wait>(
    rt: &R,
    desk: &mut PlainDesk,
    place: u32,
    master: &Tuple,
    want: Want,
    moment: u64,
)
    requires known { IsKnown desk.old }
    requires spare { 1 ≤ desk.old.spare }
    requires held { is_held_for_entry place desk.old.held ≡ true }
    ensures { Went desk.old desk.new 1 0 }
{
    entries_keep_helper_and_zone();
    let PeekOutcome::Seen { subject, .. } = desk.peek(rt, place) else {
        return;
    };
    let named = subject.original == *master || subject.reply == *master;
    if moment > 10_000_000_000_000_000 || !named || !subject.helper {
        return;
    }
    let _ = desk.expect(rt, place, want, moment);
}
