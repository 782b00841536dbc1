//! The lines of what a listener heard of each thread.

ghost use Rattle.std.specs.Prelude.{◌≤◌, length};
ghost use Rattle.report_text.specs.Heard.{heard_line, heard_text};
ghost use Rattle.report_text.specs.Internal.Gathered.{Gathered};
ghost use Rattle.report_text.specs.Page.{Adds, HasRoom};
ghost use Rattle.report_text.specs.Texts.{texts_from};
ghost use Rattle.report_text.specs.Wrote.{Wrote};

use crate::line::ReportLine;
use crate::page::{LONGEST_LINE, Page};
use crate::write::{WriteFault, write_all, write_line};
use ct_io::Sink;

/// Of so many events that a thread made, so many were heard.
#[derive(Clone, Copy)]
pub struct HeardCount {
    pub heard: u64,
    pub made: u64,
}

impl<'b> Page<'b> {
    /// Writes the line of a thread, with a script of this number among the threads.
    #[tactic(auto, unfolding(crate::specs::Heard::heard_line))]
    pub(crate) fn heard_line(&mut self, script: usize, thread: usize, count: &HeardCount)
        requires { HasRoom LONGEST_LINE self.old }
        ensures { Adds LONGEST_LINE (heard_line script thread count.now) self.old self.new }
    {
        self.text(b"heard ");
        if thread == script {
            self.text(b"s");
        } else {
            self.number(thread);
        }
        self.text(b" ");
        self.number(count.heard);
        self.text(b" of ");
        self.number(count.made);
        self.text(b"\n");
    }
}

/// Writes the line of each thread, or holds it back.
#[tactic(auto, using(crate::proofs::Gathers::sent_none, crate::proofs::Gathers::sent_each))]
fn write_lines<K: Sink>(
    script: usize,
    counts: &[HeardCount],
    page: &mut Page,
    out: &mut K,
) -> Result<(), WriteFault>
    ensures { Gathered (texts_from (heard_line script) 0 counts.now) page.old page.new
        (K.tape out.old) (K.tape out.new) result }
{
    'lines: for (thread, count) in counts.iter().enumerate() {
        let line = ReportLine::Heard {
            script,
            thread,
            count,
        };
        write_line(line, page, out)?;
    }
    Ok(())
}

/// Writes for each thread how many of its events were heard, in one call of the sink where `buffer` is large. The last is
/// the script's.
#[tactic(auto, using(crate::proofs::Gathers::lost_front, crate::proofs::Gathers::wrote_rest), unfolding(crate::specs::Heard::heard_text))]
pub fn write_heard<K: Sink>(
    counts: &[HeardCount],
    buffer: &mut [u8],
    out: &mut K,
) -> Result<(), WriteFault>
    requires { LONGEST_LINE ≤ length buffer.old }
    ensures wrote { Wrote (heard_text counts.now) (K.tape out.old) (K.tape out.new) result }
    ensures faults_stay { (K.tape out.old).faults ≤ (K.tape out.new).faults }
{
    let mut page = Page::new(buffer);
    let script = counts.len().saturating_sub(1);
    write_lines(script, counts, &mut page, out)?;
    write_all(page.held(), out)
}
