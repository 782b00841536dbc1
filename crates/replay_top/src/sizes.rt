//! The sizes of the program's tracker.

ghost use Rattle.std.specs.Prelude.{◌≡◌, ◌≤◌};
ghost use Rattle.command_words.specs.Asked.{asked_as, origin_as};
ghost use Rattle.command_words.specs.Words.{IsWithin};
ghost use Rattle.history_book.specs.Sizes.{AreWithinLimits};
ghost use Rattle.replay_top.specs.Replay.{sizes_of, threads_of};

use command_words::{Asked, Origin};
use history_book::sizes::Sizes;

/// How many threads work through it, besides the script's.
fn threads_of(origin: &Origin<'_>) -> u32
    requires { threads_of (origin_as origin.now) ≤ 63 }
    ensures { result ≡ threads_of (origin_as origin.now) }
{
    match origin {
        Origin::Named(names) => names.captures.len() as u32,
        Origin::Made(workload) => workload.threads,
    }
}

/// The sizes of the tracker that is asked for. It makes a pass for each capture, and one for the script.
pub fn sizes_of(asked: &Asked<'_>) -> Sizes
    requires { IsWithin (asked_as asked.now) }
    ensures exact { result ≡ sizes_of (asked_as asked.now) }
    ensures limits { AreWithinLimits result }
{
    Sizes {
        entries: asked.entries,
        buckets: asked.buckets,
        seed: 1,
        passes: threads_of(&asked.origin) + 1,
        expectations: 1_024,
    }
}
