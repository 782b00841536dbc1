//! What holds of all bytes as scripts, and of every answer that fits: each law is the contract of a function that does
//! nothing but cite the laws of histories that it follows from.

ghost use Rattle.conntrack_cmd.specs.Laws.{AnswersStillFit, LowerMarksFit, ZonedDeletesNameTheirZone, ZonedDeletesLeaveOtherZones, ZonedListsNameTheirZone};
ghost use Rattle.conntrack_cmd.specs.ScriptLaws.{BytesHaveScriptOrFault, CommandsAreLawful, FaultsAreFirst, FaultsAreUnique, FirstAreFaults, LinesMakeScripts, ScriptsAreShort, ScriptsAreUnique, ScriptsHaveNoFault, ScriptsSayTheirCommands};

use file_text::laws::{addresses_are_small, numbers_stay_within, ports_are_small};
use history_book::laws::{events_may_happen, events_stay, states_stay};
use history_book::zone_laws::other_zones_stay;

/// Bytes are one script at most.
pub fn scripts_are_unique()
    ensures { ScriptsAreUnique }
{}

/// Bytes have one fault at most.
pub fn faults_are_unique()
    ensures { FaultsAreUnique }
{}

/// A script has no fault.
pub fn scripts_have_no_fault()
    ensures { ScriptsHaveNoFault }
{}

/// Each list of bytes is a script, or has a fault.
pub fn bytes_have_script_or_fault()
    ensures { BytesHaveScriptOrFault }
{}

/// The commands of a script are what its lines say, in their order.
pub fn scripts_say_their_commands()
    ensures { ScriptsSayTheirCommands }
{}

/// Bytes whose lines say at most 256 commands, and `wait` at most once, are a script of them.
pub fn lines_make_scripts()
    ensures { LinesMakeScripts }
{}

/// There are at most 256 commands, and `wait` is at most their number.
pub fn scripts_are_short()
    ensures { ScriptsAreShort }
{}

/// The tuple of each `-G` is valid, each moment is at most 10^16, and ports stand beside TCP or UDP.
pub fn commands_are_lawful()
    ensures { CommandsAreLawful }
{
    addresses_are_small();
    numbers_stay_within();
    ports_are_small();
}

/// A fault is that of the first faulty line.
pub fn faults_are_first()
    ensures { FaultsAreFirst }
{}

/// The fault of the first faulty line is the script's.
pub fn first_are_faults()
    ensures { FirstAreFaults }
{}

/// An answer that fits its command still fits it when the history goes on.
pub fn answers_still_fit()
    ensures { AnswersStillFit }
{
    events_stay();
    states_stay();
}

/// An answer that fits from a mark on fits from any lower mark on.
pub fn lower_marks_fit()
    ensures { LowerMarksFit }
{}

/// A list for one zone names entries of that zone alone.
pub fn zoned_lists_name_their_zone()
    ensures { ZonedListsNameTheirZone }
{}

/// So do the rows of a command that deletes in one zone.
pub fn zoned_deletes_name_their_zone()
    ensures { ZonedDeletesNameTheirZone }
{
    events_may_happen();
}

/// Each event of such a command destroys an entry of that zone, and leaves the parts of the others.
pub fn zoned_deletes_leave_other_zones()
    ensures { ZonedDeletesLeaveOtherZones }
{
    events_may_happen();
    other_zones_stay();
}
