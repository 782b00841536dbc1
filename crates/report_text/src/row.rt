//! The rows of an answer, each written on a page that has room for the longest line.

ghost use Rattle.std.specs.Prelude.{◌≡◌};
ghost use Rattle.tuple_core.specs.Tuple.{number_of};
ghost use Rattle.report_text.specs.Page.{Adds, HasRoom};
ghost use Rattle.report_text.specs.Row.{columns_text, expectation_line, expected_text, padded_word};
ghost use Rattle.report_text.specs.Row.{row_line, seconds_left, state_column, tuples_text, unreplied_text};

use crate::page::{LONGEST_LINE, Page};
use expect_table::expectation::Expectation;
use history_book::answer::Row;
use history_book::record::Record;
use proto_rules::PartKind;
use tuple_core::Proto;

/// A second, in microseconds.
const SECOND: u64 = 1_000_000;

/// The whole seconds from the moment until the deadline, both in microseconds.
fn seconds_left(moment: u64, deadline: u64) -> u64
    ensures { result ≡ seconds_left moment deadline }
{
    deadline.saturating_sub(moment) / SECOND
}

/// The number of a protocol in the header of a packet (RFC 791).
fn proto_number(proto: Proto) -> u8
    ensures { result ≡ number_of proto }
{
    match proto {
        Proto::Icmp => 1,
        Proto::Tcp => 6,
        Proto::Udp => 17,
    }
}

impl<'b> Page<'b> {
    /// Writes the word of a protocol, in eight places.
    fn padded_proto(&mut self, proto: Proto)
        requires { HasRoom 8 self.old }
        ensures { Adds 8 (padded_word proto) self.old self.new }
    {
        match proto {
            Proto::Icmp => self.text(b"icmp    "),
            Proto::Tcp => self.text(b"tcp     "),
            Proto::Udp => self.text(b"udp     "),
        }
    }

    /// Writes the state of a connection.
    fn state_column(&mut self, kind: PartKind)
        requires { HasRoom 12 self.old }
        ensures { Adds 12 (state_column kind) self.old self.new }
    {
        if let PartKind::Tcp(state) = kind {
            self.state_word(state);
            self.text(b" ");
        }
    }

    /// Writes the protocol of an entry, the seconds that are left at the moment, and the state.
    #[tactic(auto, unfolding(crate::specs::Row::columns_text))]
    fn columns(&mut self, moment: u64, subject: &Record)
        requires { HasRoom 46 self.old }
        ensures { Adds 46 (columns_text moment subject.now) self.old self.new }
    {
        self.padded_proto(subject.original.proto);
        self.text(b" ");
        self.number(proto_number(subject.original.proto));
        self.text(b" ");
        self.number(seconds_left(moment, subject.part.deadline));
        self.text(b" ");
        self.state_column(subject.part.kind);
    }

    /// Writes whether a reply was seen.
    fn unreplied(&mut self, replied: bool)
        requires { HasRoom 12 self.old }
        ensures { Adds 12 (unreplied_text replied) self.old self.new }
    {
        if !replied {
            self.text(b" [UNREPLIED]");
        }
    }

    /// Writes both tuples of an entry, and whether it is answered and assured.
    #[tactic(auto, unfolding(crate::specs::Row::tuples_text))]
    fn tuples(&mut self, subject: &Record)
        requires { HasRoom 155 self.old }
        ensures { Adds 155 (tuples_text subject.now) self.old self.new }
    {
        self.tuple(&subject.original);
        self.unreplied(subject.part.replied);
        self.text(b" ");
        self.tuple(&subject.reply);
        self.text_if(subject.part.assured, b" [ASSURED]");
    }

    /// Writes the line of an entry at a moment.
    #[tactic(auto, unfolding(crate::specs::Row::row_line))]
    pub(crate) fn row_line(&mut self, moment: u64, row: &Row)
        requires { HasRoom LONGEST_LINE self.old }
        ensures { Adds LONGEST_LINE (row_line moment row.now) self.old self.new }
    {
        self.columns(moment, &row.subject);
        self.tuples(&row.subject);
        self.zone(row.subject.original.zone);
        self.point(row.at);
        self.text(b"\n");
    }

    /// Writes what is expected, and of which entry.
    #[tactic(auto, unfolding(crate::specs::Row::expected_text))]
    fn expected(&mut self, e: &Expectation)
        requires { HasRoom 101 self.old }
        ensures { Adds 101 (expected_text e.now) self.old self.new }
    {
        self.text(b" proto=6 src=");
        self.address(e.want.src);
        self.text(b" dst=");
        self.address(e.want.dst);
        self.text(b" sport=0 dport=");
        self.number(e.want.port);
        self.text(b" master=");
        self.number(e.master);
    }

    /// Writes the line of an expectation at a moment and a point.
    #[tactic(auto, unfolding(crate::specs::Row::expectation_line))]
    pub(crate) fn expectation_line(&mut self, moment: u64, at: u64, e: &Expectation)
        requires { HasRoom LONGEST_LINE self.old }
        ensures { Adds LONGEST_LINE (expectation_line moment at e.now) self.old self.new }
    {
        self.number(seconds_left(moment, e.deadline));
        self.expected(e);
        self.zone(e.zone);
        self.point(at);
        self.text(b"\n");
    }
}
