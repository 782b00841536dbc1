//! Looking for what is live under a tuple, without waiting.

ghost use Rattle.std.specs.Prelude.{◌≡◌, []};
ghost use Rattle.bucket_table.specs.Finding.{CanTest, once_words};
ghost use Rattle.track_rule.specs.ChangesOnly.{ChangesWords};
ghost use Rattle.shared_desk.specs.Lookups.{LooksOnce};

use crate::laws::tuples_tell_entries;
use bucket_table::finding;
use bucket_table::finding::FindOnce;
use history_book::laws::live_records_are_confirmed;
use track_rule::history_word::events_in;
use track_rule::pass::Pass;
use tuple_core::{Tuple, is_valid};

/// Looks once for what is live under a tuple, the original one first, and holds its place. Nothing is under one that is not valid.
#[inline(always)]
pub fn find_once(pass: &mut Pass, t: &Tuple) -> FindOnce
    requires shut { pass.old.view.buckets.shut ≡ [] }
    requires can { CanTest pass.old }
    ensures says { LooksOnce result t.now pass.old pass.new }
    ensures words { ChangesWords (once_words result) pass.old.view pass.new.view }
{
    live_records_are_confirmed();
    tuples_tell_entries();
    if is_valid(t) {
        return finding::find_once(pass, t);
    }
    FindOnce::Absent {
        at: events_in(pass.history_load()),
    }
}
