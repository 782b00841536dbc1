//! The commands that need one answer of the desk: each is answered as of one point.

ghost use Rattle.std.specs.Prelude.{◌≡◌, ◌≤◌};
ghost use Rattle.history_book.specs.Places.{HoldsNothing};
ghost use Rattle.history_book.specs.Sight.{IsKnown};
ghost use Rattle.conntrack_cmd.specs.declared.command.Command.TheVariants.{Count, Get, ListExpect};
ghost use Rattle.conntrack_cmd.specs.Internal.Spoken.{GetsOrSaw, Speaks};

use crate::bundles::found_entries_stay;
use crate::spoken::Spoken;
use history_book::answer::{Row, Said};
use history_book::desk::Desk;
use history_book::outcome::{FindOutcome, LiveCount, PeekOutcome};
use history_book::places::give_up;
use history_book::report::Expectations;
use history_book::sight_laws::desks_go_on;
use std::sync::Wait;
use tuple_core::Tuple;

/// Counts the entries.
pub fn count_live<R: Wait, D: Desk>(rt: &R, desk: &mut D) -> Spoken
    requires empty { HoldsNothing (D.sight desk.old) }
    ensures says { Speaks Count (D.sight desk.old) (D.sight desk.new) result }
    ensures knows { IsKnown (D.sight desk.new) }
{
    let LiveCount { live, at } = desk.count(rt);
    Spoken {
        said: Said::Counted(live),
        from: at,
        to: at,
    }
}

/// Lists what is expected, in the list that it takes.
pub fn list_expected<R: Wait, D: Desk>(rt: &R, desk: &mut D, listed: Expectations) -> Spoken
    requires room { (D.sight desk.old).sizes.expectations ≤ listed.room }
    requires empty { HoldsNothing (D.sight desk.old) }
    ensures says { Speaks ListExpect (D.sight desk.old) (D.sight desk.new) result }
    ensures knows { IsKnown (D.sight desk.new) }
{
    let mut listed = listed;
    let at = desk.expects(rt, &mut listed);
    listed.fit();
    Spoken {
        said: Said::Expectations(listed),
        from: at,
        to: at,
    }
}

/// Looks once at what is live under the tuple: none where the entry that was found is no longer live.
fn look_once<R: Wait, D: Desk>(rt: &R, desk: &mut D, t: &Tuple) -> Option<Spoken>
    requires empty { HoldsNothing (D.sight desk.old) }
    ensures says { GetsOrSaw t.now (D.sight desk.old) (D.sight desk.new) result }
    ensures empty { HoldsNothing (D.sight desk.new) }
    ensures knows { IsKnown (D.sight desk.new) }
{
    desks_go_on();
    found_entries_stay();
    match desk.find(rt, t) {
        FindOutcome::Absent { at } => Some(Spoken {
            said: Said::Got(None),
            from: at,
            to: at,
        }),
        FindOutcome::Found { place, .. } => match desk.peek(rt, place) {
            PeekOutcome::Gone { .. } => {
                give_up(rt, desk, place);
                None
            }
            PeekOutcome::Seen { subject, at } => {
                give_up(rt, desk, place);
                let row = Row { subject, at };
                Some(Spoken {
                    said: Said::Got(Some(row)),
                    from: at,
                    to: at,
                })
            }
        },
    }
}

/// Looks up what is live under the tuple, in either direction.
pub fn look_up<R: Wait, D: Desk>(rt: &R, desk: &mut D, t: &Tuple) -> Spoken
    requires empty { HoldsNothing (D.sight desk.old) }
    requires knows { IsKnown (D.sight desk.old) }
    ensures says { Speaks (Get t.now) (D.sight desk.old) (D.sight desk.new) result }
    ensures knows { IsKnown (D.sight desk.new) }
{
    desks_go_on();
    'looks: for _ in rt.forever() {
        if let Some(spoken) = look_once(rt, desk, t) {
            return spoken;
        }
    }
    unreachable!()
}
