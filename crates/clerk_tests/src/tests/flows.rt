//! Flows of UDP, and a clerk's way with one of them.

ghost use Rattle.std.specs.Prelude.{◌≡◌, ◌+◌, ◌≤◌, true, Some, None, []};
ghost use Rattle.history_book.specs.Entry.{is_lawful_flow, is_of_entry};
ghost use Rattle.history_book.specs.Held.{is_held, without};
ghost use Rattle.history_book.specs.Places.{HoldsNothing, HoldsOne};
ghost use Rattle.history_book.specs.WentOn.{IsSamePass};
ghost use Rattle.proto_rules.specs.declared.PartKind.TheVariants as kind;
ghost use Rattle.shared_desk.specs.Sights.{sight_of};
ghost use Rattle.tuple_core.specs.declared.Proto.TheVariants.{Udp};
ghost use Rattle.tuple_core.specs.declared.Segment.TheVariants as segment;

use bucket_table::finding::FindOnce;
use ct_io::Gate;
use history_book::desk::Desk;
use history_book::outcome::{ConfirmOutcome, ReleaseOutcome, TakeOutcome};
use history_book::record::Flow;
use proto_rules::{Part, PartKind};
use shared_desk::clerk::Clerk;
use std::process::Abort;
use std::sync::Wait;
use tuple_core::{Proto, Tuple};

/// The tuple of a packet of UDP from one address and port to another, in zone 0.
pub fn udp(src: u32, a: u16, dst: u32, b: u16) -> Tuple
    ensures protocol { result.proto ≡ Udp }
    ensures zone { result.zone ≡ 0 }
{
    Tuple {
        proto: Proto::Udp,
        zone: 0,
        src,
        dst,
        a,
        b,
    }
}

/// A flow of UDP with these tuples of one zone, without the helper.
pub fn flow(original: Tuple, reply: Tuple) -> Flow
    requires original { original.proto ≡ Udp }
    requires reply { reply.proto ≡ Udp }
    requires zone { reply.zone ≡ original.zone }
    ensures protocol { is_lawful_flow result ≡ true }
    ensures kind { result.part.kind ≡ kind.Udp }
{
    Flow {
        original,
        reply,
        part: Part {
            kind: PartKind::Udp,
            replied: false,
            assured: false,
            deadline: 31_000_000,
        },
        helper: false,
        master: None,
    }
}

/// The query 10.0.0.1:5000 to 10.0.0.2:53 and its answer.
pub fn query() -> Flow
    ensures protocol { is_lawful_flow result ≡ true }
    ensures kind { result.part.kind ≡ kind.Udp }
{
    flow(
        udp(0x0a00_0001, 5000, 0x0a00_0002, 53),
        udp(0x0a00_0002, 53, 0x0a00_0001, 5000),
    )
}

/// Confirms the query in the one place that the clerk has taken, as the first entry of all, and keeps the place for it.
pub fn confirm_query<G: Gate, R: Wait + Abort>(rt: &R, clerk: &mut Clerk<G>, place: u32)
    requires one { HoldsOne (record { place = place; id = None }) (sight_of clerk.old) }
    requires spare { 1 ≤ (sight_of clerk.old).spare }
    ensures one { HoldsOne (record { place = place; id = Some 0 }) (sight_of clerk.new) }
    ensures protocol { is_of_entry segment.Udp 0 (sight_of clerk.new).front ≡ true }
    ensures spare { (sight_of clerk.old).spare ≤ (sight_of clerk.new).spare + 1 }
{
    let ConfirmOutcome::Confirmed { id } = clerk.confirm(rt, place, &query()) else {
        panic!(rt; "nobody has the flow");
    };
    assert_eq!(rt; id, 0);
}

/// Gives up the one place that the clerk holds, and makes it free where nobody else has it.
pub fn give_up<G: Gate, R: Wait>(rt: &R, clerk: &mut Clerk<G>, place: u32)
    requires held { is_held place (sight_of clerk.old).held ≡ true }
    requires only { without place (sight_of clerk.old).held ≡ [] }
    requires owed { (sight_of clerk.old).owed ≡ [] }
    ensures nothing { HoldsNothing (sight_of clerk.new) }
    ensures same { IsSamePass (sight_of clerk.old) (sight_of clerk.new) }
    ensures spare { (sight_of clerk.new).spare ≡ (sight_of clerk.old).spare }
{
    match clerk.release_now(place) {
        ReleaseOutcome::Kept => {}
        ReleaseOutcome::Last => clerk.recycle(rt, place),
    }
}

/// Confirms a flow in the one place that the clerk has taken, and gives the place up.
pub fn confirm_in<G: Gate, R: Wait>(
    rt: &R,
    clerk: &mut Clerk<G>,
    place: u32,
    flow: &Flow,
) -> ConfirmOutcome
    requires one { HoldsOne (record { place = place; id = None }) (sight_of clerk.old) }
    requires protocol { is_lawful_flow flow.now ≡ true }
    requires spare { 1 ≤ (sight_of clerk.old).spare }
    ensures nothing { HoldsNothing (sight_of clerk.new) }
    ensures same { IsSamePass (sight_of clerk.old) (sight_of clerk.new) }
    ensures spare { (sight_of clerk.old).spare ≤ (sight_of clerk.new).spare + 1 }
{
    let outcome = clerk.confirm(rt, place, flow);
    give_up(rt, clerk, place);
    outcome
}

/// Takes a place for a flow, confirms it there, and gives the place up. None is that no place was free.
pub fn answer<G: Gate, R: Wait>(rt: &R, clerk: &mut Clerk<G>, flow: &Flow) -> Option<ConfirmOutcome>
    requires nothing { HoldsNothing (sight_of clerk.old) }
    requires protocol { is_lawful_flow flow.now ≡ true }
    requires spare { 1 ≤ (sight_of clerk.old).spare }
    ensures nothing { HoldsNothing (sight_of clerk.new) }
    ensures same { IsSamePass (sight_of clerk.old) (sight_of clerk.new) }
    ensures spare { (sight_of clerk.old).spare ≤ (sight_of clerk.new).spare + 1 }
{
    match clerk.take(rt) {
        TakeOutcome::Taken { place } => Some(confirm_in(rt, clerk, place, flow)),
        TakeOutcome::Full { .. } => None,
    }
}

/// Looks once for a tuple, and gives up what it found.
pub fn look<G: Gate, R: Wait>(rt: &R, clerk: &mut Clerk<G>, tuple: &Tuple) -> FindOnce
    requires nothing { HoldsNothing (sight_of clerk.old) }
    ensures nothing { HoldsNothing (sight_of clerk.new) }
    ensures same { IsSamePass (sight_of clerk.old) (sight_of clerk.new) }
{
    let outcome = clerk.find_once(tuple);
    match outcome {
        FindOnce::Found { place, .. } => give_up(rt, clerk, place),
        FindOnce::Moved {
            owed: Some(place),
            ..
        } => clerk.recycle(rt, place),
        FindOnce::Moved { owed: None, .. } | FindOnce::Absent { .. } => {}
    }
    outcome
}
