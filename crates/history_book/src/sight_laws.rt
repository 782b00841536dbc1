//! How the steps of a desk add up: each law is the contract of a function that does nothing.

ghost use Rattle.history_book.specs.Laws.{EventsStay, StatesStay};
ghost use Rattle.history_book.specs.SightLaws.{GoingOnAddsUp, RestingIsSeeing, SeeingAddsUp};

use crate::laws::{events_stay, states_stay};

/// How the steps of a desk add up: those with events, and those without.
pub fn going_on_adds_up()
    ensures all { GoingOnAddsUp }
{}

/// A desk that twice made no event made none, nor does one that is not asked anything.
pub fn seeing_adds_up()
    ensures twice { SeeingAddsUp }
    ensures resting { RestingIsSeeing }
{}

/// What a desk sees stays as it goes on, and its steps add up: the laws that a caller of several calls needs together. The last
/// two are parts of `all` that most callers need alone.
pub fn desks_go_on()
    ensures events { EventsStay }
    ensures states { StatesStay }
    ensures all { GoingOnAddsUp }
    ensures twice { SeeingAddsUp }
    ensures resting { RestingIsSeeing }
{
    events_stay();
    going_on_adds_up();
    seeing_adds_up();
    states_stay();
}
