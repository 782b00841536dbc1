//! What holds of the bytes of every file of each kind, and of all words and files: each law is the contract of a
//! function that does nothing but cite other laws.

ghost use Rattle.run_inputs.specs.Laws.{ContentsAreUnique, FilesAreReadOrFlawed, FindingsAreUnique, FlawsAreUnique, GivenIsTold, InputsAreFound, ReadFilesHaveNoFlaw, WordsSayOne};

use command_words::laws::words_want_no_memory;
use conntrack_cmd::laws as script_laws;
use nat_setup::laws as rule_laws;
use packet_headers::capture_laws;

/// Each file is read or has a flaw.
pub fn files_are_read_or_flawed()
    ensures { FilesAreReadOrFlawed }
{
    rule_laws::bytes_have_rules_or_fault();
    script_laws::bytes_have_script_or_fault();
    capture_laws::bytes_have_frames_or_fault();
}

/// A file that is read has no flaw.
pub fn read_files_have_no_flaw()
    ensures { ReadFilesHaveNoFlaw }
{
    rule_laws::files_have_no_fault();
    script_laws::scripts_have_no_fault();
    capture_laws::captures_have_no_fault();
    capture_laws::captures_are_unique();
}

/// A file says one thing at most.
pub fn contents_are_unique()
    ensures { ContentsAreUnique }
{
    rule_laws::rules_are_unique();
    script_laws::scripts_are_unique();
    capture_laws::captures_are_unique();
}

/// A file has one flaw at most.
pub fn flaws_are_unique()
    ensures { FlawsAreUnique }
{
    rule_laws::faults_are_unique();
    script_laws::faults_are_unique();
    capture_laws::faults_are_unique();
    capture_laws::captures_have_no_fault();
}

/// Something is found of all words and files, where the contents of the files that are named are told.
pub fn inputs_are_found()
    ensures { InputsAreFound }
{
    files_are_read_or_flawed();
    words_want_no_memory();
}

/// One thing at most is found of them.
pub fn findings_are_unique()
    ensures { FindingsAreUnique }
{
    read_files_have_no_flaw();
    contents_are_unique();
    flaws_are_unique();
}

/// Files are read or flawed as their contents are, where those are told.
pub fn given_is_told()
    ensures all { GivenIsTold }
{
    read_files_have_no_flaw();
    contents_are_unique();
    flaws_are_unique();
}

/// Words ask for one thing at most, and are refused for one reason.
pub fn words_say_one()
    ensures all { WordsSayOne }
{}
