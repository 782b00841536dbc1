//! The command that ends what is expired, and what is expected no longer.

ghost use Rattle.std.specs.Prelude.{◌≡◌, ◌+◌, ◌≤◌};
ghost use Rattle.history_book.specs.Places.{HoldsNothing};
ghost use Rattle.history_book.specs.Sight.{IsKnown};
ghost use Rattle.conntrack_cmd.specs.declared.command.Command.TheVariants.{Expire};
ghost use Rattle.conntrack_cmd.specs.Internal.Spoken.{Speaks};

use crate::bundles::expectations_live_once;
use crate::late::end_late;
use crate::spoken::Spoken;
use crate::sweep::count_destroyed;
use history_book::answer::Said;
use history_book::desk::Desk;
use history_book::event::Why;
use history_book::report::Expectations;
use history_book::sight_laws::desks_go_on;
use pool_visits::laws::sweeps_see_each_entry;
use std::sync::Wait;

/// Destroys the entries that are expired at the moment, and then ends the expectations that are awaited no longer; the
/// list is for those.
pub fn expire<R: Wait, D: Desk>(rt: &R, desk: &mut D, listed: Expectations, moment: u64) -> Spoken
    requires room { (D.sight desk.old).sizes.expectations ≤ listed.room }
    requires empty { HoldsNothing (D.sight desk.old) }
    requires spare { (D.sight desk.old).sizes.entries + (D.sight desk.old).sizes.expectations
        ≤ (D.sight desk.old).spare }
    ensures says { Speaks (Expire moment) (D.sight desk.old) (D.sight desk.new) result }
    ensures knows { IsKnown (D.sight desk.new) }
{
    desks_go_on();
    expectations_live_once();
    sweeps_see_each_entry();
    let mut listed = listed;
    let first = desk.count(rt);
    let entries = count_destroyed(rt, desk, Why::Expired { moment });
    desk.expects(rt, &mut listed);
    let expectations = end_late(rt, desk, &listed, moment);
    let last = desk.count(rt);
    let said = Said::Expired {
        entries,
        expectations,
    };
    Spoken {
        said,
        from: first.at,
        to: last.at,
    }
}
