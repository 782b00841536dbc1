//! What is always so of runs: each law is the contract of a function that does nothing.

ghost use Rattle.conntrack_cmd.specs.Laws.{AnswersStillFit};
ghost use Rattle.packet_path.specs.Laws.{VerdictsStillFit};
ghost use Rattle.replay_runs.specs.Laws.{LeftRunsEnd};

use conntrack_cmd::laws::answers_still_fit;
use packet_path::laws::verdicts_still_fit;

/// A verdict that fits its packet, and an answer that fits its command, still fit when the history goes on.
pub fn what_fits_still_fits()
    ensures verdicts { VerdictsStillFit }
    ensures answers { AnswersStillFit }
{
    verdicts_still_fit();
    answers_still_fit();
}

/// A run whose desk was left has ended with its tracker.
#[tactic(auto, using(crate::proofs::Ending::left_runs_end))]
pub fn left_runs_end()
    ensures { LeftRunsEnd }
{}
