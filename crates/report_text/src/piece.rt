//! The pieces of a line, each written on a page that has room for it.

ghost use Rattle.std.specs.Fmt.{decimal};
ghost use Rattle.std.specs.Prelude.{◌≤◌, ◌++◌, codes, length};
ghost use Rattle.report_text.specs.Page.{Adds, HasRoom};
ghost use Rattle.report_text.specs.Piece.{address_text, claimed_text, class_text, direction_word, ends_text, entry_text, error_word, event_text, expectation_text, flow_text, ftp_text, label_word, made_word, master_text, point_text, proto_word, record_text, replaced_text, state_text, state_word, thread_word, touched_text, tuple_text, untracked_word, want_text, who_text, why_text, zone_text};

use crate::page::Page;
use expect_table::expectation::{Expectation, Want};
use history_book::event::{Event, Numbered, Why};
use history_book::record::Record;
use history_book::verdict::{Class, Ftp, Label, UntrackedWhy};
use proto_rules::{Part, PartKind, TcpState};
use tuple_core::{Direction, Proto, Tuple};

impl<'b> Page<'b> {
    /// Writes an address as four numbers with dots between them.
    #[tactic(auto, unfolding(crate::specs::Piece::address_text))]
    pub(crate) fn address(&mut self, address: u32)
        requires { HasRoom 15 self.old }
        ensures { Adds 15 (address_text address) self.old self.new }
    {
        self.dotted((address / 0x100_0000) as u8);
        self.dotted((address / 0x1_0000 % 256) as u8);
        self.dotted((address / 0x100 % 256) as u8);
        self.number((address % 256) as u8);
    }

    /// Writes a zone that is not 0.
    pub(crate) fn zone(&mut self, zone: u16)
        requires { HasRoom 11 self.old }
        ensures { Adds 11 (zone_text zone) self.old self.new }
    {
        if zone != 0 {
            self.text(b" zone=");
            self.number(zone);
        }
    }

    /// Writes what tells the flows between two addresses apart.
    fn ends(&mut self, t: &Tuple)
        requires { HasRoom 27 self.old }
        ensures { Adds 27 (ends_text t.now.proto t.now.a t.now.b) self.old self.new }
    {
        match t.proto {
            Proto::Icmp => {
                self.text(b" type=");
                self.number((t.b / 256) as u8);
                self.text(b" code=");
                self.number((t.b % 256) as u8);
                self.text(b" id=");
                self.number(t.a);
            }
            Proto::Tcp | Proto::Udp => {
                self.text(b" sport=");
                self.number(t.a);
                self.text(b" dport=");
                self.number(t.b);
            }
        }
    }

    /// Writes one direction of a flow.
    #[tactic(auto, unfolding(crate::specs::Piece::tuple_text))]
    pub(crate) fn tuple(&mut self, t: &Tuple)
        requires { HasRoom 66 self.old }
        ensures { Adds 66 (tuple_text t.now) self.old self.new }
    {
        self.text(b"src=");
        self.address(t.src);
        self.text(b" dst=");
        self.address(t.dst);
        self.ends(t);
    }

    /// Writes the word of a protocol.
    fn proto(&mut self, proto: Proto)
        requires { HasRoom 4 self.old }
        ensures { Adds 4 (proto_word proto) self.old self.new }
    {
        match proto {
            Proto::Icmp => self.text(b"icmp"),
            Proto::Tcp => self.text(b"tcp"),
            Proto::Udp => self.text(b"udp"),
        }
    }

    /// Writes the word of a direction.
    fn direction(&mut self, direction: Direction)
        requires { HasRoom 8 self.old }
        ensures { Adds 8 (direction_word direction) self.old self.new }
    {
        match direction {
            Direction::Original => self.text(b"original"),
            Direction::Reply => self.text(b"reply"),
        }
    }

    /// Writes a thread; the script's has this number.
    fn thread(&mut self, script: usize, thread: u32)
        requires { HasRoom 10 self.old }
        ensures { Adds 10 (thread_word script thread) self.old self.new }
    {
        if thread as usize == script {
            self.text(b"s");
        } else {
            self.number(thread);
        }
    }

    /// Writes who made an event, with a script of this number among the threads.
    fn who(&mut self, script: usize, thread: u32, index: u32)
        requires { HasRoom 21 self.old }
        ensures { Adds 21 (who_text script thread index) self.old self.new }
    {
        self.thread(script, thread);
        self.text(b".");
        self.number(index);
    }

    /// Writes the master of an entry, if it has one.
    fn master(&mut self, master: Option<u64>)
        requires { HasRoom 28 self.old }
        ensures { Adds 28 (master_text master) self.old self.new }
    {
        match master {
            None => {}
            Some(id) => {
                self.text(b" master=");
                self.number(id);
            }
        }
    }

    /// Writes the protocol of an entry and its tuples.
    #[tactic(auto, unfolding(crate::specs::Piece::flow_text))]
    fn flow(&mut self, subject: &Record)
        requires { HasRoom 138 self.old }
        ensures { Adds 138 (flow_text subject.now) self.old self.new }
    {
        self.proto(subject.original.proto);
        self.text(b" ");
        self.tuple(&subject.original);
        self.text(b" ");
        self.tuple(&subject.reply);
    }

    /// Writes the word of a state of a connection.
    pub(crate) fn state_word(&mut self, state: TcpState)
        requires { HasRoom 11 self.old }
        ensures { Adds 11 (state_word state) self.old self.new }
    {
        match state {
            TcpState::Unset => self.text(b"NONE"),
            TcpState::SynSent => self.text(b"SYN_SENT"),
            TcpState::SynRecv => self.text(b"SYN_RECV"),
            TcpState::Established => self.text(b"ESTABLISHED"),
            TcpState::FinWait => self.text(b"FIN_WAIT"),
            TcpState::CloseWait => self.text(b"CLOSE_WAIT"),
            TcpState::LastAck => self.text(b"LAST_ACK"),
            TcpState::TimeWait => self.text(b"TIME_WAIT"),
            TcpState::Close => self.text(b"CLOSE"),
            TcpState::SynSent2 => self.text(b"SYN_SENT2"),
        }
    }

    /// Writes the state of an entry, if its protocol has one.
    fn state(&mut self, kind: PartKind)
        requires { HasRoom 18 self.old }
        ensures { Adds 18 (state_text kind) self.old self.new }
    {
        match kind {
            PartKind::Tcp(state) => {
                self.text(b" state=");
                self.state_word(state);
            }
            PartKind::Udp | PartKind::Icmp => {}
        }
    }

    /// Writes a new entry.
    #[tactic(auto, unfolding(crate::specs::Piece::record_text))]
    fn record(&mut self, subject: &Record)
        requires { HasRoom 229 self.old }
        ensures { Adds 229 (record_text subject.now) self.old self.new }
    {
        self.flow(subject);
        self.text(b" until=");
        self.number(subject.part.deadline);
        self.state(subject.part.kind);
        self.master(subject.master);
        self.text_if(subject.helper, b" helper");
        self.zone(subject.original.zone);
    }

    /// Writes why an entry was destroyed.
    fn why(&mut self, why: Why)
        requires { HasRoom 9 self.old }
        ensures { Adds 9 (why_text why) self.old self.new }
    {
        match why {
            Why::Expired { moment: _ } => self.text(b" expired"),
            Why::Reopened { .. } => self.text(b" reopened"),
            Why::Reset { .. } => self.text(b" reset"),
            Why::Deleted { .. } => self.text(b" deleted"),
            Why::Flushed => self.text(b" flushed"),
            Why::Dropped { moment: _ } => self.text(b" dropped"),
        }
    }

    /// Writes the way of a packet that an entry accepted, and the entry's part from then on.
    #[tactic(auto, unfolding(crate::specs::Piece::touched_text))]
    fn touched(&mut self, id: u64, direction: Direction, after: &Part)
        requires { HasRoom 96 self.old }
        ensures { Adds 96 (touched_text id direction after.now) self.old self.new }
    {
        self.text(b" id=");
        self.number(id);
        self.text(b" ");
        self.direction(direction);
        self.text(b" until=");
        self.number(after.deadline);
        self.state(after.kind);
        self.text_if(after.replied, b" replied");
        self.text_if(after.assured, b" assured");
    }

    /// Writes the older expectation that ends, if there is one.
    fn replaced(&mut self, replaced: Option<u64>)
        requires { HasRoom 30 self.old }
        ensures { Adds 30 (replaced_text replaced) self.old self.new }
    {
        match replaced {
            None => {}
            Some(id) => {
                self.text(b" replaces=");
                self.number(id);
            }
        }
    }

    /// Writes from where a connection is expected, and to where.
    #[tactic(auto, unfolding(crate::specs::Piece::want_text))]
    fn want(&mut self, want: &Want)
        requires { HasRoom 52 self.old }
        ensures { Adds 52 (want_text want.now) self.old self.new }
    {
        self.text(b" src=");
        self.address(want.src);
        self.text(b" dst=");
        self.address(want.dst);
        self.text(b" dport=");
        self.number(want.port);
    }

    /// Writes an expectation, the older one that ends with that, and the zone.
    #[tactic(auto, unfolding(crate::specs::Piece::expectation_text))]
    fn expectation(&mut self, e: &Expectation, replaced: Option<u64>)
        requires { HasRoom 148 self.old }
        ensures { Adds 148 (expectation_text e.now replaced) self.old self.new }
    {
        self.master(Some(e.master));
        self.want(&e.want);
        self.text(b" until=");
        self.number(e.deadline);
        self.replaced(replaced);
        self.zone(e.zone);
    }

    /// Writes the expectation that a packet met, and its master.
    fn claimed(&mut self, expectation: u64, master: u64)
        requires { HasRoom 56 self.old }
        ensures { Adds 56 (claimed_text expectation master) self.old self.new }
    {
        self.text(b" expect=");
        self.number(expectation);
        self.master(Some(master));
    }

    /// Writes the number of an event, its word, and who made it.
    #[inline(always)]
    fn event_head(&mut self, word: &[u8], script: usize, e: &Numbered)
        requires few { length word.now ≤ 8 }
        requires room { HasRoom 51 self.old }
        ensures { Adds 51 (decimal e.now.number ++ codes " " ++ word.now ++ codes " "
            ++ who_text script e.now.thread e.now.index) self.old self.new }
    {
        self.number(e.number);
        self.text(b" ");
        self.text(word);
        self.text(b" ");
        self.who(script, e.thread, e.index);
    }

    /// Writes the number of an event, the event, and who made it. It asks what happened first, and once.
    #[inline(always)]
    #[tactic(auto, unfolding(crate::specs::Piece::event_text))]
    pub(crate) fn event(&mut self, script: usize, e: &Numbered)
        requires { HasRoom 281 self.old }
        ensures { Adds 281 (decimal e.now.number
            ++ event_text (who_text script e.now.thread e.now.index) e.now.event) self.old self.new }
    {
        match e.event {
            Event::Confirm { subject } => {
                self.event_head(b"confirm", script, e);
                self.text(b" ");
                self.record(&subject);
            }
            Event::Touch {
                id,
                direction,
                after,
                ..
            } => {
                self.event_head(b"touch", script, e);
                self.touched(id, direction, &after);
            }
            Event::Destroy { id, why } => {
                self.event_head(b"destroy", script, e);
                self.text(b" id=");
                self.number(id);
                self.why(why);
            }
            Event::Expect {
                expectation,
                replaced,
                ..
            } => {
                self.event_head(b"expect", script, e);
                self.expectation(&expectation, replaced);
            }
            Event::Claim {
                expectation,
                master,
                ..
            } => {
                self.event_head(b"claim", script, e);
                self.claimed(expectation, master);
            }
            Event::Unexpect { expectation, .. } => {
                self.event_head(b"unexpect", script, e);
                self.text(b" expect=");
                self.number(expectation);
                self.text(b" expired");
            }
        }
    }

    /// Writes a point of the history.
    #[tactic(auto, unfolding(crate::specs::Piece::point_text))]
    pub(crate) fn point(&mut self, point: u64)
        requires { HasRoom 22 self.old }
        ensures { Adds 22 (point_text point) self.old self.new }
    {
        self.text(b" @");
        self.number(point);
    }

    /// Writes the entry of a packet, and a point of the history.
    fn entry(&mut self, id: u64, point: u64)
        requires { HasRoom 46 self.old }
        ensures { Adds 46 (entry_text id point) self.old self.new }
    {
        self.text(b" id=");
        self.number(id);
        self.point(point);
    }

    /// Writes the word of a new entry.
    fn made(&mut self, unclaimed: Option<u64>)
        requires { HasRoom 7 self.old }
        ensures { Adds 7 (made_word unclaimed) self.old self.new }
    {
        match unclaimed {
            None => self.text(b"RELATED"),
            Some(_) => self.text(b"NEW"),
        }
    }

    /// Writes the word of a state of a flow.
    fn label(&mut self, label: Label)
        requires { HasRoom 17 self.old }
        ensures { Adds 17 (label_word label) self.old self.new }
    {
        match label {
            Label::New => self.text(b"NEW"),
            Label::Related => self.text(b"RELATED"),
            Label::Established => self.text(b"ESTABLISHED"),
            Label::EstablishedReply => self.text(b"ESTABLISHED_REPLY"),
        }
    }

    /// Writes what the payload of a packet led to.
    fn ftp(&mut self, ftp: Ftp)
        requires { HasRoom 53 self.old }
        ensures { Adds 53 (ftp_text ftp) self.old self.new }
    {
        match ftp {
            Ftp::Nothing => {}
            Ftp::Expected { id } => {
                self.text(b" ftp expect=");
                self.number(id);
            }
            Ftp::Address => self.text(b" ftp address"),
            Ftp::Clash { id, at } => {
                self.text(b" ftp clash=");
                self.number(id);
                self.point(at);
            }
            Ftp::Full { at } => {
                self.text(b" ftp full");
                self.point(at);
            }
            Ftp::Gone { at } => {
                self.text(b" ftp gone");
                self.point(at);
            }
        }
    }

    /// Writes the word of why a packet is not tracked.
    fn untracked(&mut self, why: UntrackedWhy)
        requires { HasRoom 8 self.old }
        ensures { Adds 8 (untracked_word why) self.old self.new }
    {
        match why {
            UntrackedWhy::Link => self.text(b"link"),
            UntrackedWhy::Fragment => self.text(b"fragment"),
            UntrackedWhy::Protocol => self.text(b"protocol"),
        }
    }

    /// Writes the words of an ICMP error about an entry.
    fn error(&mut self, direction: Direction)
        requires { HasRoom 19 self.old }
        ensures { Adds 19 (error_word direction) self.old self.new }
    {
        match direction {
            Direction::Original => self.text(b"RELATED error"),
            Direction::Reply => self.text(b"RELATED_REPLY error"),
        }
    }

    /// Writes these words, and a point of the history.
    fn words_at(&mut self, words: &[u8], point: u64)
        requires few { length words.now ≤ 16 }
        requires room { HasRoom 38 self.old }
        ensures { Adds 38 (words.now ++ point_text point) self.old self.new }
    {
        self.text(words);
        self.point(point);
    }

    /// Writes these words, and two points of the history.
    fn words_between(&mut self, words: &[u8], from: u64, to: u64)
        requires few { length words.now ≤ 16 }
        requires room { HasRoom 60 self.old }
        ensures { Adds 60 (words.now ++ point_text from ++ point_text to) self.old self.new }
    {
        self.words_at(words, from);
        self.point(to);
    }

    /// Writes these words, the entry of a packet, and a point of the history.
    fn words_of(&mut self, words: &[u8], id: u64, point: u64)
        requires few { length words.now ≤ 16 }
        requires room { HasRoom 62 self.old }
        ensures { Adds 62 (words.now ++ entry_text id point) self.old self.new }
    {
        self.text(words);
        self.entry(id, point);
    }

    /// Writes what became of a packet.
    pub(crate) fn class(&mut self, class: Class)
        requires { HasRoom 116 self.old }
        ensures { Adds 116 (class_text class) self.old self.new }
    {
        match class {
            Class::Untracked(why) => {
                self.text(b"UNTRACKED ");
                self.untracked(why);
            }
            Class::BadHeader => self.text(b"INVALID header"),
            Class::NoEntry { at } => self.words_at(b"INVALID new", at),
            Class::BadState { id, at } => self.words_of(b"INVALID state", id, at),
            Class::ErrorLost { at } => self.words_at(b"INVALID error", at),
            Class::ErrorAddress { id, at } => self.words_of(b"INVALID address", id, at),
            Class::Error { direction, id, at } => {
                self.error(direction);
                self.entry(id, at);
            }
            Class::Made {
                id,
                at,
                unclaimed,
                ..
            } => {
                self.made(unclaimed);
                self.entry(id, at);
            }
            Class::Passed { label, id, at, ftp } => {
                self.label(label);
                self.entry(id, at);
                self.ftp(ftp);
            }
            Class::Ignored { id, at } => self.words_of(b"IGNORED", id, at),
            Class::Merged { id, at, .. } => self.words_of(b"MERGED", id, at),
            Class::Clash { id, at, .. } => self.words_of(b"CLASH", id, at),
            Class::NoPort { from, to } => self.words_between(b"NOPORT", from, to),
            Class::Full { from, at } => self.words_between(b"FULL", from, at),
            Class::Contended { id, at } => self.words_of(b"CONTENDED", id, at),
        }
    }
}
