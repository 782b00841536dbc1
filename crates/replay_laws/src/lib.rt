//! Laws of whole reports: where one capture is replayed alone, a report is what the tracker of one thread does, and one text is
//! printed, as far as rules choose the same and while the table is not nearly full. Each is the contract of a function that does
//! nothing but cite the laws that it follows from.
#![tactic(auto)]

ghost use Rattle.replay_laws.specs.OneAnswer.{FewFramesAreNeverNearlyFull, OneCaptureOneText, OnePacketOneAnswer};
ghost use Rattle.replay_laws.specs.OneAnswer.{OnePassIsNeverNearlyFull, OneThreadFollows, SameReportsPrintTheSame};
ghost use Rattle.replay_laws.specs.Late.{LateAnswersAreRefused};
ghost use Rattle.replay_laws.specs.Waiting.{WaitDividesPackets};

use ftp_helper::named_ends_are_unique;
use history_book::laws::{
    absent_tuples_are_nobodys, events_may_happen, found_are_found_again, free_is_absent,
    unused_places_are_room,
};
use proto_rules::laws::{expired_are_told, resets_are_unanswered, same_part_is_equality};

/// The report of one capture alone is what the tracker of one thread makes of its frames, one after another.
pub fn one_thread_follows()
    ensures { OneThreadFollows }
{
    events_may_happen();
    found_are_found_again();
    unused_places_are_room();
    free_is_absent();
    absent_tuples_are_nobodys();
    expired_are_told();
    resets_are_unanswered();
    same_part_is_equality();
}

/// Two reports of one capture alone, of trackers that are alike, are the same but for the places of entries: where rules chose
/// the same reply tuples, the table was never nearly full, and no entry was dropped.
pub fn one_packet_one_answer()
    ensures { OnePacketOneAnswer }
{
    one_thread_follows();
    named_ends_are_unique();
    free_is_absent();
}

/// In a tracker of one pass no table is nearly full.
pub fn one_pass_is_never_nearly_full()
    ensures { OnePassIsNeverNearlyFull }
{}

/// A capture of fewer frames than FULL asks for live entries leaves no table nearly full.
pub fn few_frames_are_never_nearly_full()
    ensures { FewFramesAreNeverNearlyFull }
{
    one_thread_follows();
}

/// The same reports have the same text and the same summary.
pub fn same_reports_print_the_same()
    ensures { SameReportsPrintTheSame }
{}

/// Without rules two reports of one capture alone, of trackers that are alike, have the same text, where the table was never
/// nearly full and no entry was dropped.
pub fn one_capture_one_text()
    ensures { OneCaptureOneText }
{
    one_packet_one_answer();
    same_reports_print_the_same();
}

/// Every packet was answered before the commands behind `wait`.
#[tactic(auto, using(crate::proofs::Waiting::wait_divides))]
pub fn wait_divides_packets()
    ensures { WaitDividesPackets }
{}

/// Two reports in which a packet was answered as a flush behind `wait` left the table are not well formed.
#[tactic(auto, using(crate::proofs::Waiting::late_answers))]
pub fn late_answers_are_refused()
    ensures { LateAnswersAreRefused }
{}
