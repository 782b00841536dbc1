//! What holds of all bytes as files of rules: each law is the contract of a function that does nothing.

ghost use Rattle.nat_setup.specs.RuleLaws.{BytesHaveRulesOrFault, FaultsAreFirst, FaultsAreUnique, FilesHaveNoFault, FilesSayTheirRules, FirstAreFaults, LinesMakeFiles, RulesAreLawful, RulesAreUnique};

use file_text::laws::numbers_stay_within;

/// Bytes are a file of one list of rules at most.
pub fn rules_are_unique()
    ensures { RulesAreUnique }
{}

/// Bytes have one fault at most.
pub fn faults_are_unique()
    ensures { FaultsAreUnique }
{}

/// A file of rules has no fault.
pub fn files_have_no_fault()
    ensures { FilesHaveNoFault }
{}

/// Each list of bytes is a file of some rules, or has a fault.
pub fn bytes_have_rules_or_fault()
    ensures { BytesHaveRulesOrFault }
{}

/// The lines of a file of rules say its rules.
pub fn files_say_their_rules()
    ensures { FilesSayTheirRules }
{}

/// Bytes whose lines say at most 256 rules are a file of them.
pub fn lines_make_files()
    ensures { LinesMakeFiles }
{}

/// The rules of a file are lawful, and there are at most 256.
pub fn rules_are_lawful()
    ensures { RulesAreLawful }
{
    numbers_stay_within();
}

/// A fault is that of the first faulty line.
pub fn faults_are_first()
    ensures { FaultsAreFirst }
{}

/// The fault of the first faulty line is the file's.
pub fn first_are_faults()
    ensures { FirstAreFaults }
{}
