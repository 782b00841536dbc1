//! The protocol step: when an entry of TCP, UDP or ICMP begins, how a packet changes it, and how long
//! it then lives.
#![tactic(auto)]

ghost use Rattle.std.specs.Prelude.{◌≡◌, ◌≤◌, ◌^◌, true};
ghost use Rattle.proto_rules.specs.Protocol.{is_of_protocol};
ghost use Rattle.proto_rules.specs.Start.{start_of};
ghost use Rattle.proto_rules.specs.Step.{step_of};

mod accepted;
mod drops;
pub mod laws;
mod protocol;
mod same;
mod tcp;
mod tcp_table;
mod timeout;

use accepted::{begin, icmp_part, udp_part};
pub use drops::droppable;
pub use protocol::{is_of_protocol, proto_of};
pub use same::is_same_part;
use tcp::{tcp_start, tcp_step};
pub use tcp_table::{Cell, tcp_cell};
use timeout::{ICMP_TIMEOUT, udp_timeout};
use tuple_core::{Direction, Segment};

/// The state of a connection as the tracker sees it, by the segments that have passed.
#[derive(Clone, Copy)]
pub enum TcpState {
    /// No connection is tracked: the state before the first segment. No cell of the tables leads to it.
    Unset,
    /// A SYN was seen.
    SynSent,
    /// A SYN and its answer, a SYN with an ACK, were seen.
    SynRecv,
    Established,
    /// A FIN was seen.
    FinWait,
    /// The FIN was acknowledged.
    CloseWait,
    /// A second FIN was seen.
    LastAck,
    /// The second FIN was acknowledged.
    TimeWait,
    /// The connection was reset.
    Close,
    /// A SYN was seen from both sides.
    SynSent2,
}

/// The protocol of an entry, with its state. UDP and ICMP have no state.
#[derive(Clone, Copy)]
pub enum PartKind {
    Tcp(TcpState),
    Udp,
    Icmp,
}

/// What a packet changes of an entry.
#[derive(Clone, Copy)]
pub struct Part {
    pub kind: PartKind,
    /// Whether a packet in the reply direction was accepted.
    pub replied: bool,
    /// Whether the flow goes both ways: of TCP, whether the connection was established once a reply was
    /// seen; of UDP, whether an original packet was accepted after a reply. ICMP is never assured.
    pub assured: bool,
    /// The moment, in microseconds, from which on the entry is expired.
    pub deadline: u64,
}

/// What a packet does to an entry that it finds.
#[derive(Clone, Copy)]
pub enum Outcome {
    /// The entry goes on with this part.
    Accept(Part),
    /// The packet passes, and the entry stays as it is.
    Ignore,
    /// The entry has no place for such a packet in its state, and stays as it is.
    Invalid,
    /// The packet begins a new connection in place of the closed one.
    Reopen,
    /// The packet ends a connection that was never answered.
    Reset,
    /// The entry's deadline is at most the packet's moment.
    Expired,
}

/// The part of the entry that begins with this segment at `moment`, in microseconds. `None` exactly
/// where no entry begins with it. A capture counts its seconds in 32 bits, so that its moments are
/// below the bound.
#[inline(always)]
pub fn start(segment: Segment, moment: u64) -> Option<Part>
    requires { moment ≤ 10 ^ 16 }
    ensures { result ≡ start_of segment moment }
{
    match segment {
        Segment::Tcp(tcp_kind) => tcp_start(tcp_kind, moment),
        Segment::Udp => Some(begin(PartKind::Udp, udp_timeout(false), moment)),
        Segment::Icmp(8 | 13 | 15 | 17) => Some(begin(PartKind::Icmp, ICMP_TIMEOUT, moment)),
        Segment::Icmp(_) => None,
    }
}

/// What a packet in this direction, with this segment and at `moment`, in microseconds, does to an
/// entry of the same protocol.
#[inline(always)]
pub fn step(part: &Part, direction: Direction, segment: Segment, moment: u64) -> Outcome
    requires fits { moment ≤ 10 ^ 16 }
    requires same { is_of_protocol segment part.now.kind ≡ true }
    ensures { result ≡ step_of part.now direction segment moment }
{
    if part.deadline <= moment {
        return Outcome::Expired;
    }
    match (part.kind, segment) {
        (PartKind::Tcp(state), Segment::Tcp(tcp_kind)) => {
            tcp_step(part, state, direction, tcp_kind, moment)
        }
        (PartKind::Udp, Segment::Udp) => Outcome::Accept(udp_part(part, direction, moment)),
        (PartKind::Icmp, Segment::Icmp(_)) => Outcome::Accept(icmp_part(part, direction, moment)),
        (PartKind::Tcp(_), Segment::Udp | Segment::Icmp(_))
        | (PartKind::Udp, Segment::Tcp(_) | Segment::Icmp(_))
        | (PartKind::Icmp, Segment::Tcp(_) | Segment::Udp) => unreachable!(),
    }
}
