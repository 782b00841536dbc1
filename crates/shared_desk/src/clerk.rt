//! One thread's handle on a tracker, with those of its calls that are not a desk's. The others stand in `desk.rt`.

ghost use Rattle.std.specs.Prelude.{◌≡◌, ◌+◌, ◌≤◌, true, length, []};
ghost use Rattle.history_book.specs.Desk.{CountSays, ReleaseSays};
ghost use Rattle.history_book.specs.Held.{is_held};
ghost use Rattle.history_book.specs.Join.{CanJoin, Joins};
ghost use Rattle.history_book.specs.Leave.{IsLeftOf};
ghost use Rattle.history_book.specs.Places.{HoldsNothing};
ghost use Rattle.history_book.specs.Sight.{IsKnown};
ghost use Rattle.history_book.specs.Split.{CanSplit, Splits};
ghost use Rattle.track_rule.specs.ChangesOnly.{ChangesWords, is_refs_of, no_word};
ghost use Rattle.bucket_table.specs.Finding.{once_words};
ghost use Rattle.shared_desk.specs.FindsOnce.{FindOnceSays};
ghost use Rattle.shared_desk.specs.Sights.{sight_of};

use crate::lookup::find_once;
use crate::tracker::Spot;
use bucket_table::finding::FindOnce;
use ct_io::Gate;
use entry_pool::hold::release;
use history_book::outcome::{LiveCount, ReleaseOutcome};
use history_book::report::Notes;
use std::marker::Model;
use track_rule::history_word::{events_in, live_in};
use track_rule::pass::Pass;
use tuple_core::Tuple;

/// One thread's handle on the tracker: its pass, with the list of its own events. Contracts see it as the pass, and for how many
/// further events it has room.
#[derive(Drop)]
pub struct Clerk<'t, G: Gate> {
    pub(crate) pass: Pass<'t>,
    pub(crate) notes: Notes,
    pub(crate) spare: u64,
    pub(crate) gate: &'t G,
    pub(crate) worker: u32,
}

impl<'t, G: Gate> Model for Clerk<'t, G> {
    ghost use Rattle.shared_desk.specs.Rest.{IsAtRest};
    ghost use Rattle.shared_desk.specs.Sights.{ClerkSight};

    ghost Value = { ClerkSight };

    ghost view = { λ c. record { pass = c.pass; spare = c.spare } };

    ghost invariant = { λ c. IsAtRest c.pass c.notes c.spare };
}

impl<'t, G: Gate> Clerk<'t, G> {
    /// Leaves the clerk, which keeps no place.
    pub fn leave(self) -> Spot
        requires { HoldsNothing (sight_of self) }
        ensures left { IsLeftOf (sight_of self.entry) (sight_of result) }
        ensures same { result ≡ self.entry }
    {
        let Clerk {
            pass,
            notes,
            spare,
            ..
        } = self;
        Spot {
            stub: pass.leave(),
            notes,
            spare,
        }
    }

    /// Hands over so many of its shares to a further clerk, for a thread of this number.
    pub fn split(&mut self, worker: u32, shares: u32) -> Clerk<'t, G>
        requires { CanSplit shares (sight_of self.old) }
        ensures splits { Splits shares (sight_of self.old) (sight_of self.new) (sight_of result) }
        ensures own { ChangesWords no_word self.old.pass.view self.new.pass.view }
        ensures further_own { result.pass.view.readings ≡ [] }
        ensures knows { IsKnown (sight_of self.new) }
        ensures further_knows { IsKnown (sight_of result) }
    {
        let pass = self.pass.split(shares);
        Clerk {
            pass,
            notes: self.notes.empty_like(),
            spare: 0,
            gate: self.gate,
            worker,
        }
    }

    /// Takes in another clerk of its tracker, and gives its own events.
    pub fn join(&mut self, other: Clerk<'t, G>) -> Notes
        requires { CanJoin (sight_of self.old) (sight_of other) }
        ensures joins { Joins (sight_of self.old) (sight_of other.entry) (sight_of self.new) result.items }
        ensures own { ChangesWords no_word self.old.pass.view self.new.pass.view }
        ensures knows { IsKnown (sight_of self.new) }
    {
        let Clerk { pass, notes, .. } = other;
        self.pass.join(pass);
        let _ = self.pass.history_load();
        notes
    }

    /// Counts the live entries, by one load of the history word.
    pub fn count_now(&mut self) -> LiveCount
        ensures says { CountSays (sight_of self.old) (sight_of self.new) result }
        ensures own { ChangesWords no_word self.old.pass.view self.new.pass.view }
        ensures knows { IsKnown (sight_of self.new) }
    {
        let word = self.pass.history_load();
        LiveCount {
            live: live_in(word),
            at: events_in(word),
        }
    }

    /// Looks once for what is live under a tuple, the original one first, and holds its place. It does not wait, and shuts no bucket.
    #[inline(always)]
    pub fn find_once(&mut self, t: &Tuple) -> FindOnce
        requires { length (sight_of self.old).held + length (sight_of self.old).owed ≤ 3 }
        ensures says { FindOnceSays result t.now self.old self.new }
        ensures own { ChangesWords (once_words result) self.old.pass.view self.new.pass.view }
        ensures knows { IsKnown (sight_of self.new) }
    {
        find_once(&mut self.pass, t)
    }

    /// Gives up one reference to a place, without waiting.
    #[inline(always)]
    pub fn release_now(&mut self, place: u32) -> ReleaseOutcome
        requires { is_held place (sight_of self.old).held ≡ true }
        ensures says { ReleaseSays place (sight_of self.old) (sight_of self.new) result }
        ensures own { ChangesWords (is_refs_of place) self.old.pass.view self.new.pass.view }
        ensures knows { IsKnown (sight_of self.new) }
    {
        release(&mut self.pass, place)
    }
}
