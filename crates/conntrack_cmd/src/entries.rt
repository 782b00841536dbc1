//! The commands that go over all entries. Each is answered from the point of a look before the first place up to that
//! of a look after the last.

ghost use Rattle.std.specs.Prelude.{◌≡◌, ◌≤◌, []};
ghost use Rattle.history_book.specs.Places.{HoldsNothing};
ghost use Rattle.history_book.specs.Sight.{IsKnown};
ghost use Rattle.conntrack_cmd.specs.declared.command.Command.TheVariants.{Delete, Flush, List};
ghost use Rattle.conntrack_cmd.specs.Internal.Spoken.{Speaks};

use crate::bundles::entries_live_once;
use crate::sort::sort_rows;
use crate::spoken::Spoken;
use crate::sweep::{count_destroyed, destroy_all, list_all};
use history_book::answer::{Rows, Said};
use history_book::desk::Desk;
use history_book::event::Why;
use history_book::filter::Filter;
use history_book::sight_laws::desks_go_on;
use pool_visits::laws::sweeps_see_each_entry;
use std::sync::Wait;

/// Lists the entries that the filter selects, in the list that it takes.
pub fn list_entries<R: Wait, D: Desk>(rt: &R, desk: &mut D, filter: &Filter, rows: Rows) -> Spoken
    requires none { rows.items ≡ [] }
    requires room { (D.sight desk.old).sizes.entries ≤ rows.room }
    requires empty { HoldsNothing (D.sight desk.old) }
    ensures says { Speaks (List filter.now) (D.sight desk.old) (D.sight desk.new) result }
    ensures knows { IsKnown (D.sight desk.new) }
{
    desks_go_on();
    sweeps_see_each_entry();
    let mut rows = rows;
    let first = desk.count(rt);
    list_all(rt, desk, filter, &mut rows);
    sort_rows(&mut rows);
    let last = desk.count(rt);
    let said = Said::Listed(rows);
    Spoken {
        said,
        from: first.at,
        to: last.at,
    }
}

/// Destroys the entries that the filter selects, and lists them in the list that it takes.
pub fn delete_entries<R: Wait, D: Desk>(rt: &R, desk: &mut D, filter: &Filter, rows: Rows) -> Spoken
    requires none { rows.items ≡ [] }
    requires room { (D.sight desk.old).sizes.entries ≤ rows.room }
    requires empty { HoldsNothing (D.sight desk.old) }
    requires spare { (D.sight desk.old).sizes.entries ≤ (D.sight desk.old).spare }
    ensures says { Speaks (Delete filter.now) (D.sight desk.old) (D.sight desk.new) result }
    ensures knows { IsKnown (D.sight desk.new) }
{
    desks_go_on();
    entries_live_once();
    sweeps_see_each_entry();
    let mut rows = rows;
    let first = desk.count(rt);
    let why = Why::Deleted { filter: *filter };
    destroy_all(rt, desk, why, &mut rows);
    sort_rows(&mut rows);
    let last = desk.count(rt);
    let said = Said::Deleted(rows);
    Spoken {
        said,
        from: first.at,
        to: last.at,
    }
}

/// Destroys all entries.
pub fn flush_entries<R: Wait, D: Desk>(rt: &R, desk: &mut D) -> Spoken
    requires empty { HoldsNothing (D.sight desk.old) }
    requires spare { (D.sight desk.old).sizes.entries ≤ (D.sight desk.old).spare }
    ensures says { Speaks Flush (D.sight desk.old) (D.sight desk.new) result }
    ensures knows { IsKnown (D.sight desk.new) }
{
    desks_go_on();
    entries_live_once();
    sweeps_see_each_entry();
    let first = desk.count(rt);
    count_destroyed(rt, desk, Why::Flushed);
    let last = desk.count(rt);
    let said = Said::Flushed;
    Spoken {
        said,
        from: first.at,
        to: last.at,
    }
}
