//! The line of an answer, written on a page that has room for the longest one.

ghost use Rattle.report_text.specs.Answer.{answer_head, points_text, said_text};
ghost use Rattle.report_text.specs.Page.{Adds, HasRoom};

use crate::page::{LONGEST_LINE, Page};
use history_book::answer::{Answer, Said};

impl<'b> Page<'b> {
    /// Writes what is said to a command, in a word, and how much of it.
    fn said(&mut self, said: &Said, made: u64)
        requires { HasRoom 40 self.old }
        ensures { Adds 40 (said_text said.now made) self.old self.new }
    {
        match said {
            Said::Listed(rows) => {
                self.text(b" list ");
                self.number(rows.len());
            }
            Said::Expectations(rows) => {
                self.text(b" expectations ");
                self.number(rows.len());
            }
            Said::Got(None) => self.text(b" get 0"),
            Said::Got(Some(_)) => self.text(b" get 1"),
            Said::Deleted(rows) => {
                self.text(b" deleted ");
                self.number(rows.len());
            }
            Said::Flushed => {
                self.text(b" flushed ");
                self.number(made);
            }
            Said::Counted(live) => {
                self.text(b" count ");
                self.number(*live);
            }
            Said::Expired {
                entries,
                expectations,
            } => {
                self.text(b" expired ");
                self.number(*entries);
                self.text(b" ");
                self.number(*expectations);
            }
        }
    }

    /// Writes the points of a sweep, or the one point of another answer.
    fn points(&mut self, said: &Said, from: u64, to: u64)
        requires { HasRoom 44 self.old }
        ensures { Adds 44 (points_text said.now from to) self.old self.new }
    {
        match said {
            Said::Listed(_) | Said::Deleted(_) | Said::Flushed | Said::Expired { .. } => {
                self.point(from);
                self.point(to);
            }
            Said::Expectations(_) | Said::Got(_) | Said::Counted(_) => self.point(from),
        }
    }

    /// Writes the line of the answer to the command of this index.
    #[tactic(auto, unfolding(crate::specs::Answer::answer_head))]
    pub(crate) fn answer_head(&mut self, index: usize, answer: &Answer)
        requires { HasRoom LONGEST_LINE self.old }
        ensures { Adds LONGEST_LINE (answer_head index answer.now) self.old self.new }
    {
        self.number(index);
        self.said(&answer.said, answer.made);
        self.points(&answer.said, answer.from, answer.to);
        self.text(b"\n");
    }
}
