//! The entry for which a place is held: it is read, touched, or destroyed, under the turn of the place's record.

ghost use Rattle.std.specs.Prelude.{◌≡◌};
ghost use Rattle.track_rule.specs.ChangesOnly.{ChangesWords, is_history, is_turn_of, no_word, where_so};
ghost use Rattle.shared_desk.specs.Changed.{is_touched, kill_words, killed_words, touch_words};
ghost use Rattle.shared_desk.specs.Killing.{Kills, KillsUnder, SuitsKill};
ghost use Rattle.shared_desk.specs.Looking.{HasRecord, IsFreeFor, Peeks};
ghost use Rattle.shared_desk.specs.Touching.{Notes, SuitsEntry, touch_note, TouchesLive, TouchesUnder};
ghost use Rattle.track_rule.specs.TurnSteps.{subject_in};

use crate::commit::take_turn;
use crate::killing::judge;
use crate::touching::{EntryPacket, MadeTouch, step_record};
use history_book::event::{Note, Why};
use history_book::laws::entries_keep_their_protocol;
use history_book::outcome::{KillOutcome, PeekOutcome, TouchOutcome};
use history_book::record::Record;
use std::sync::Wait;
use track_rule::history_word::events_in;
use track_rule::pass::Pass;
use track_rule::place_phase::LIVE;

/// The record in the slot that is out, or none. It stays there.
#[inline(always)]
pub fn record_out(pass: &mut Pass, place: u32) -> Option<Record>
    requires { HasRecord place pass.old }
    ensures record { result ≡ subject_in pass.old.slots }
    ensures same { pass.new ≡ pass.old }
{
    pass.record_load(place)
}

/// Reads the entry for which a place is held, under the turn of the place's record.
#[cold]
fn read_record(pass: &mut Pass, place: u32) -> PeekOutcome
    requires { HasRecord place pass.old }
    ensures peeks { Peeks place result pass.old pass.new }
    ensures words { ChangesWords no_word pass.old.view pass.new.view }
{
    let phase = pass.phase_load(place);
    let at = events_in(pass.history_load());
    if phase < LIVE {
        return PeekOutcome::Gone { at };
    }
    match record_out(pass, place) {
        Some(subject) => PeekOutcome::Seen { subject, at },
        None => PeekOutcome::Gone { at },
    }
}

/// Waits for the turn of a place's record, and reads the entry for which the place is held.
pub fn peek<R: Wait>(rt: &R, pass: &mut Pass, place: u32) -> PeekOutcome
    requires { IsFreeFor place pass.old }
    ensures peeks { Peeks place result pass.old pass.new }
    ensures words { ChangesWords (is_turn_of place) pass.old.view pass.new.view }
{
    take_turn(rt, pass, place);
    let outcome = read_record(pass, place);
    pass.turn_give(place);
    outcome
}

/// Touches the entry for which a place is held, under the turn of the place's record.
#[inline(always)]
fn touch_record(
    pass: &mut Pass,
    place: u32,
    packet: &EntryPacket,
) -> (TouchOutcome, Option<MadeTouch>)
    requires has { HasRecord place pass.old }
    requires suits { SuitsEntry place packet.now pass.old }
    ensures touches { TouchesUnder place packet.now result.0 pass.old pass.new }
    ensures words { ChangesWords (where_so (is_touched result.0) is_history) pass.old.view pass.new.view }
    ensures noted { Notes (touch_note packet.now result.1) pass.old.view.seen.own pass.new.view.seen.own }
{
    entries_keep_their_protocol();
    let phase = pass.phase_load(place);
    let at = events_in(pass.history_load());
    if phase < LIVE {
        return (TouchOutcome::Gone { at }, None);
    }
    match record_out(pass, place) {
        Some(before) => step_record(pass, place, phase - LIVE, &before, packet, at),
        None => (TouchOutcome::Gone { at }, None),
    }
}

/// Waits for the turn of a place's record, and touches the entry for which the place is held.
#[inline(always)]
pub fn touch<R: Wait>(
    rt: &R,
    pass: &mut Pass,
    place: u32,
    packet: &EntryPacket,
) -> (TouchOutcome, Option<MadeTouch>)
    requires free { IsFreeFor place pass.old }
    requires suits { SuitsEntry place packet.now pass.old }
    ensures touches { TouchesLive place packet.now result.0 pass.old pass.new }
    ensures words { ChangesWords (touch_words place result.0) pass.old.view pass.new.view }
    ensures noted { Notes (touch_note packet.now result.1) pass.old.view.seen.own pass.new.view.seen.own }
{
    take_turn(rt, pass, place);
    let outcome = touch_record(pass, place, packet);
    pass.turn_give(place);
    outcome
}

/// Destroys the entry for which a place is held, if the reason holds of it, under the turn of the place's record.
#[cold]
fn kill_record<R: Wait>(
    rt: &R,
    pass: &mut Pass,
    place: u32,
    why: Why,
) -> (KillOutcome, Option<Note>)
    requires has { HasRecord place pass.old }
    requires suits { SuitsKill place why pass.old }
    ensures kills { KillsUnder place why result.0 pass.old pass.new }
    ensures words { ChangesWords (killed_words place result.0) pass.old.view pass.new.view }
    ensures noted { Notes result.1 pass.old.view.seen.own pass.new.view.seen.own }
{
    let phase = pass.phase_load(place);
    let at = events_in(pass.history_load());
    if phase < LIVE {
        return (KillOutcome::Gone { at }, None);
    }
    match record_out(pass, place) {
        Some(subject) => judge(rt, pass, place, &subject, why, at),
        None => (KillOutcome::Gone { at }, None),
    }
}

/// Waits for the turn of a place's record, and destroys the entry for which the place is held, if the reason holds of it.
pub fn kill<R: Wait>(rt: &R, pass: &mut Pass, place: u32, why: Why) -> (KillOutcome, Option<Note>)
    requires free { IsFreeFor place pass.old }
    requires suits { SuitsKill place why pass.old }
    ensures kills { Kills place why result.0 pass.old pass.new }
    ensures words { ChangesWords (kill_words place result.0) pass.old.view pass.new.view }
    ensures noted { Notes result.1 pass.old.view.seen.own pass.new.view.seen.own }
{
    take_turn(rt, pass, place);
    let outcome = kill_record(rt, pass, place, why);
    pass.turn_give(place);
    outcome
}
