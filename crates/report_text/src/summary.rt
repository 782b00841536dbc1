//! A report's summary, written to a sink. No call takes memory.

ghost use Rattle.std.specs.Prelude.{◌≡◌, ℕ, ◌+◌, ◌<◌, ◌≤◌, ◌^◌, ◌++◌, length, slice_index, slice_set};
ghost use Rattle.report_text.specs.FirstWord.{first_words, place_of, word_text};
ghost use Rattle.report_text.specs.Internal.Gathered.{Gathered};
ghost use Rattle.report_text.specs.Internal.Counting.{Counted, IsCount, line_of_count};
ghost use Rattle.report_text.specs.Page.{Adds, HasRoom};
ghost use Rattle.report_text.specs.Summary.{all_verdicts, summary_head, summary_text, word_line, words_text};
ghost use Rattle.report_text.specs.Texts.{texts_from};
ghost use Rattle.report_text.specs.Wrote.{Wrote};
ghost use Rattle.report_text.specs.declared.first_word.FirstWord.{FirstWord};

use crate::first_word::{ALL, FirstWord, WORDS};
use crate::number::Number;
use crate::page::{LONGEST_LINE, Page};
use crate::write::{WriteFault, make_room, write_all};
use ct_io::Sink;
use history_book::report::{Report, Verdicts};

/// How often each first word occurs, in their order. No number of verdicts is too large for it.
type Counts = [u128; WORDS];

/// Counts the first words of some more verdicts.
fn count_verdicts(counts: &mut Counts, verdicts: &Verdicts)
    requires { (word : FirstWord) → slice_index counts.old (place_of word) + 2 ^ 64 ≤ 2 ^ 128 }
    ensures counted { Counted verdicts.now.items counts.old counts.new }
    ensures few { length verdicts.now.items < 2 ^ 64 }
{
    'verdicts: for index in 0..verdicts.len() {
        let verdict = verdicts.at(index);
        counts[FirstWord::of(verdict.class).place()] += 1;
    }
}

/// Counts the first words of the verdicts of all threads.
fn count_threads(threads: &[Verdicts]) -> Counts
    ensures { IsCount (all_verdicts threads.now) result }
{
    let mut counts = [0; WORDS];
    'threads: for verdicts in threads {
        count_verdicts(&mut counts, verdicts);
    }
    counts
}

/// The number of verdicts of all threads.
fn count_packets(threads: &[Verdicts]) -> u128
    ensures { result ≡ length (all_verdicts threads.now) }
{
    let mut packets = 0;
    'threads: for verdicts in threads {
        packets += verdicts.len() as u128;
    }
    packets
}

impl<'b> Page<'b> {
    /// Writes a first word.
    fn first_word(&mut self, word: FirstWord)
        requires { HasRoom 17 self.old }
        ensures { Adds 17 (word_text word) self.old self.new }
    {
        match word {
            FirstWord::Untracked => self.text(b"UNTRACKED"),
            FirstWord::Invalid => self.text(b"INVALID"),
            FirstWord::New => self.text(b"NEW"),
            FirstWord::Related => self.text(b"RELATED"),
            FirstWord::Established => self.text(b"ESTABLISHED"),
            FirstWord::EstablishedReply => self.text(b"ESTABLISHED_REPLY"),
            FirstWord::RelatedReply => self.text(b"RELATED_REPLY"),
            FirstWord::Ignored => self.text(b"IGNORED"),
            FirstWord::Merged => self.text(b"MERGED"),
            FirstWord::Clash => self.text(b"CLASH"),
            FirstWord::NoPort => self.text(b"NOPORT"),
            FirstWord::Full => self.text(b"FULL"),
            FirstWord::Contended => self.text(b"CONTENDED"),
        }
    }

    /// Writes the line of a word that occurs so often, and nothing for one that never does.
    #[tactic(auto, unfolding(crate::specs::Summary::word_line))]
    fn word_line(&mut self, word: FirstWord, often: u128)
        requires { HasRoom LONGEST_LINE self.old }
        ensures { Adds LONGEST_LINE (word_line word often) self.old self.new }
    {
        if often > 0 {
            self.first_word(word);
            self.text(b" ");
            self.number(often);
            self.text(b"\n");
        }
    }

    /// Writes a name, and a number in plain decimal.
    fn named<I: Number>(&mut self, name: &[u8], number: I)
        requires { HasRoom (length name.now + I.MAX_STR_LEN) self.old }
        ensures { Adds (length name.now + I.MAX_STR_LEN) (name.now ++ I.text number) self.old self.new }
    {
        self.text(name);
        self.number(number);
    }

    /// Writes the first line of a summary.
    #[tactic(auto, unfolding(crate::specs::Summary::summary_head))]
    fn summary_head(&mut self, threads: usize, packets: u128, events: usize, live: u32)
        requires { HasRoom LONGEST_LINE self.old }
        ensures { Adds LONGEST_LINE (summary_head threads packets events live) self.old self.new }
    {
        self.named(b"summary threads=", threads);
        self.named(b" packets=", packets);
        self.named(b" events=", events);
        self.named(b" live=", live);
        self.text(b"\n");
    }
}

/// Writes the line of a word, or holds it back.
#[tactic(auto, using(crate::proofs::Gathers::sent_line, crate::proofs::Gathers::lost_line))]
fn write_word<K: Sink>(
    word: FirstWord,
    often: u128,
    page: &mut Page,
    out: &mut K,
) -> Result<(), WriteFault>
    ensures { Gathered (word_line word often) page.old page.new
        (K.tape out.old) (K.tape out.new) result }
{
    make_room(page, out)?;
    page.word_line(word, often);
    Ok(())
}

/// Writes the lines of the words that occur, or holds them back.
#[tactic(auto, using(crate::proofs::Gathers::sent_none, crate::proofs::Gathers::sent_each))]
fn write_words<K: Sink>(counts: &Counts, page: &mut Page, out: &mut K) -> Result<(), WriteFault>
    ensures { Gathered (texts_from (line_of_count counts.now) 0 first_words) page.old page.new
        (K.tape out.old) (K.tape out.new) result }
{
    'words: for word in ALL {
        write_word(word, counts[word.place()], page, out)?;
    }
    Ok(())
}

/// Writes the first line of a report's summary, or holds it back.
#[tactic(auto, using(crate::proofs::Gathers::sent_line, crate::proofs::Gathers::lost_line))]
fn write_summary_head<K: Sink>(
    report: &Report,
    page: &mut Page,
    out: &mut K,
) -> Result<(), WriteFault>
    ensures { Gathered (summary_head (length report.now.threads.items) (length (all_verdicts report.now.threads.items))
        (length report.now.history.items) report.now.live) page.old page.new
        (K.tape out.old) (K.tape out.new) result }
{
    make_room(page, out)?;
    let packets = count_packets(report.threads.as_slice());
    page.summary_head(
        report.threads.len(),
        packets,
        report.history.len(),
        report.live,
    );
    Ok(())
}

/// Writes how often each first word of the threads' verdicts occurs, or holds it back.
fn write_counts<K: Sink>(
    threads: &[Verdicts],
    page: &mut Page,
    out: &mut K,
) -> Result<(), WriteFault>
    ensures { Gathered (words_text (all_verdicts threads.now)) page.old page.new
        (K.tape out.old) (K.tape out.new) result }
{
    let counts = count_threads(threads);
    write_words(&counts, page, out)
}

/// Writes the summary of a report, or holds it back.
#[tactic(auto, using(crate::proofs::Gathers::gathered_then, crate::proofs::Gathers::lost_more), unfolding(crate::specs::Summary::summary_text))]
fn gather_summary<K: Sink>(report: &Report, page: &mut Page, out: &mut K) -> Result<(), WriteFault>
    ensures { Gathered (summary_text report.now) page.old page.new
        (K.tape out.old) (K.tape out.new) result }
{
    write_summary_head(report, page, out)?;
    write_counts(report.threads.as_slice(), page, out)
}

/// Writes the summary of `report` through `buffer`, in one call of the sink where that is large.
#[tactic(auto, using(crate::proofs::Gathers::lost_front, crate::proofs::Gathers::wrote_rest))]
pub fn write_summary<K: Sink>(
    report: &Report,
    buffer: &mut [u8],
    out: &mut K,
) -> Result<(), WriteFault>
    requires { LONGEST_LINE ≤ length buffer.old }
    ensures wrote { Wrote (summary_text report.now) (K.tape out.old) (K.tape out.new) result }
    ensures faults_stay { (K.tape out.old).faults ≤ (K.tape out.new).faults }
{
    let mut page = Page::new(buffer);
    gather_summary(report, &mut page, out)?;
    write_all(page.held(), out)
}
