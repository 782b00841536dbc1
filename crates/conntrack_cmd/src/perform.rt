//! Performs one command, over any desk.

ghost use Rattle.std.specs.Prelude.{◌≡◌, ◌+◌, ◌≤◌, ◌^◌, [], length, IfOk, OnOk, OnErr};
ghost use Rattle.history_book.specs.Desk.{IsReady};
ghost use Rattle.history_book.specs.Places.{HoldsNothing};
ghost use Rattle.history_book.specs.Sight.{IsKnown};
ghost use Rattle.history_book.specs.WentOn.{WentOn};
ghost use Rattle.conntrack_cmd.specs.Internal.Spoken.{Speaks};
ghost use Rattle.conntrack_cmd.specs.Moment.{moment_of};
ghost use Rattle.conntrack_cmd.specs.Laws.{NamesItsZone};
ghost use Rattle.conntrack_cmd.specs.Performed.{Performed};

use crate::command::Command;
use crate::entries::{delete_entries, flush_entries, list_entries};
use crate::expire::expire;
use crate::looks::{count_live, list_expected, look_up};
use crate::spoken::Spoken;
use history_book::answer::{Answer, Rows};
use history_book::desk::Desk;
use history_book::laws::events_may_happen;
use history_book::report::Expectations;
use std::alloc::Global;
use std::sync::Wait;
use tuple_core::NoMemory;

/// Makes room for an event for each place and each expectation.
fn make_ready<D: Desk>(desk: &mut D) -> Result<(), NoMemory>
    requires { length (D.sight desk.old).own + (D.sight desk.old).sizes.entries + (D.sight desk.old).sizes.expectations ≤ 2 ^ 30 }
    ensures ready { OnOk result (IsReady ((D.sight desk.old).sizes.entries + (D.sight desk.old).sizes.expectations)
        (D.sight desk.old) (D.sight desk.new)) }
    ensures same { OnErr result (D.sight desk.new ≡ D.sight desk.old) }
    ensures knows { IsKnown (D.sight desk.new) }
{
    let room = desk.places() as u64 + desk.expect_room() as u64;
    desk.ready(room)
}

/// Performs a command: first it takes the list that the command needs.
fn speak<R: Wait, D: Desk>(
    rt: &R,
    alloc: Global,
    desk: &mut D,
    command: &Command,
) -> Result<Spoken, NoMemory>
    requires spare { (D.sight desk.old).sizes.entries + (D.sight desk.old).sizes.expectations
        ≤ (D.sight desk.old).spare }
    requires empty { HoldsNothing (D.sight desk.old) }
    requires knows { IsKnown (D.sight desk.old) }
    ensures says { IfOk result (Speaks command.now (D.sight desk.old) (D.sight desk.new)) }
    ensures same { OnErr result (D.sight desk.new ≡ D.sight desk.old) }
    ensures knows { IsKnown (D.sight desk.new) }
{
    let places = desk.places() as usize;
    let expect_room = desk.expect_room() as usize;
    match command {
        Command::List(filter) => {
            let rows = Rows::new(alloc, places)?;
            Ok(list_entries(rt, desk, filter, rows))
        }
        Command::ListExpect => {
            let listed = Expectations::new(alloc, expect_room)?;
            Ok(list_expected(rt, desk, listed))
        }
        Command::Get(t) => Ok(look_up(rt, desk, t)),
        Command::Delete(filter) => {
            let rows = Rows::new(alloc, places)?;
            Ok(delete_entries(rt, desk, filter, rows))
        }
        Command::Flush => Ok(flush_entries(rt, desk)),
        Command::Count => Ok(count_live(rt, desk)),
        Command::Expire(moment) => {
            let listed = Expectations::new(alloc, expect_room)?;
            Ok(expire(rt, desk, listed, *moment))
        }
    }
}

/// Performs a command at a moment in microseconds, as `perform` does, which proves besides what it says of zones.
fn perform_command<R: Wait, D: Desk>(
    rt: &R,
    alloc: Global,
    desk: &mut D,
    command: &Command,
    moment: u64,
) -> Result<Answer, NoMemory>
    requires timely { moment ≤ 10 ^ 16 }
    requires named { moment_of command.now ≤ 10 ^ 16 }
    requires few { length (D.sight desk.old).own + (D.sight desk.old).sizes.entries + (D.sight desk.old).sizes.expectations ≤ 2 ^ 30 }
    requires nothing_held { (D.sight desk.old).held ≡ [] }
    requires nothing_owed { (D.sight desk.old).owed ≡ [] }
    ensures performed { IfOk result (Performed command.now moment (D.sight desk.old) (D.sight desk.new)) }
    ensures went { OnErr result (WentOn (D.sight desk.old) (D.sight desk.new) []) }
    ensures held { OnErr result ((D.sight desk.new).held ≡ []) }
    ensures owed { OnErr result ((D.sight desk.new).owed ≡ []) }
    ensures none_taken { (D.sight desk.new).taken ≡ (D.sight desk.old).taken }
    ensures knows { IsKnown (D.sight desk.new) }
{
    let first = desk.made();
    make_ready(desk)?;
    let Spoken { said, from, to } = speak(rt, alloc, desk, command)?;
    let made = desk.made() - first;
    Ok(Answer {
        said,
        from,
        to,
        first,
        made,
        moment,
    })
}

/// Performs a command at a moment in microseconds, and takes no place of the pool. All memory that it needs is taken
/// before its first event: where that is wanting, it made no event. Where a list or a command that deletes names a zone,
/// its rows are of that zone alone.
#[tactic(auto, using(crate::proofs::ZonedRows::names_its_zone))]
pub fn perform<R: Wait, D: Desk>(
    rt: &R,
    alloc: Global,
    desk: &mut D,
    command: &Command,
    moment: u64,
) -> Result<Answer, NoMemory>
    requires timely { moment ≤ 10 ^ 16 }
    requires named { moment_of command.now ≤ 10 ^ 16 }
    requires few { length (D.sight desk.old).own + (D.sight desk.old).sizes.entries + (D.sight desk.old).sizes.expectations ≤ 2 ^ 30 }
    requires nothing_held { (D.sight desk.old).held ≡ [] }
    requires nothing_owed { (D.sight desk.old).owed ≡ [] }
    ensures performed { IfOk result (Performed command.now moment (D.sight desk.old) (D.sight desk.new)) }
    ensures went { OnErr result (WentOn (D.sight desk.old) (D.sight desk.new) []) }
    ensures held { OnErr result ((D.sight desk.new).held ≡ []) }
    ensures owed { OnErr result ((D.sight desk.new).owed ≡ []) }
    ensures zoned { IfOk result (NamesItsZone command.now) }
    ensures none_taken { (D.sight desk.new).taken ≡ (D.sight desk.old).taken }
    ensures knows { IsKnown (D.sight desk.new) }
{
    events_may_happen();
    perform_command(rt, alloc, desk, command, moment)
}
