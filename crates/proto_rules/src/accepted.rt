//! What a part is as an entry begins, and after a packet was accepted.

ghost use Rattle.std.specs.Prelude.{◌≡◌, ◌≤◌, ◌^◌};
ghost use Rattle.proto_rules.specs.Part.{icmp_part, replied_after, tcp_assured, tcp_part, udp_part};
ghost use Rattle.proto_rules.specs.Start.{begun};

use crate::timeout::{ICMP_TIMEOUT, deadline, tcp_lifetime, udp_timeout};
use crate::{Part, PartKind, TcpState};
use tuple_core::Direction;

/// The part of an entry that begins, and lives for this many seconds.
#[inline(always)]
pub fn begin(kind: PartKind, timeout: u64, moment: u64) -> Part
    requires timeout { timeout ≤ 432000 }
    requires moment { moment ≤ 10 ^ 16 }
    ensures { result ≡ begun kind timeout moment }
{
    Part {
        kind,
        replied: false,
        assured: false,
        deadline: deadline(moment, timeout),
    }
}

/// Whether a reply was seen, this packet included.
#[inline(always)]
fn replied_after(part: &Part, direction: Direction) -> bool
    ensures { result ≡ replied_after part.now direction }
{
    match direction {
        Direction::Original => part.replied,
        Direction::Reply => true,
    }
}

/// Whether a connection is assured once a packet took it from the old state to the new one.
#[inline(always)]
fn tcp_assured(part: &Part, old: TcpState, new: TcpState) -> bool
    ensures { result ≡ tcp_assured part.now old new }
{
    part.assured
        || (part.replied
            && matches!(old, TcpState::SynRecv | TcpState::Established)
            && matches!(new, TcpState::Established))
}

/// The part of a connection that a packet takes from the old state to the new one.
#[inline(always)]
pub fn tcp_part(
    part: &Part,
    direction: Direction,
    old: TcpState,
    new: TcpState,
    moment: u64,
) -> Part
    requires { moment ≤ 10 ^ 16 }
    ensures { result ≡ tcp_part part.now direction old new moment }
{
    Part {
        kind: PartKind::Tcp(new),
        replied: replied_after(part, direction),
        assured: tcp_assured(part, old, new),
        deadline: deadline(moment, tcp_lifetime(part.replied, new)),
    }
}

/// The part of a flow of UDP after a packet.
#[inline(always)]
pub fn udp_part(part: &Part, direction: Direction, moment: u64) -> Part
    requires { moment ≤ 10 ^ 16 }
    ensures { result ≡ udp_part part.now direction moment }
{
    let replied = replied_after(part, direction);
    let assured = match direction {
        Direction::Original => part.assured || part.replied,
        Direction::Reply => part.assured,
    };
    Part {
        kind: PartKind::Udp,
        replied,
        assured,
        deadline: deadline(moment, udp_timeout(replied)),
    }
}

/// The part of a flow of ICMP after a packet.
#[inline(always)]
pub fn icmp_part(part: &Part, direction: Direction, moment: u64) -> Part
    requires { moment ≤ 10 ^ 16 }
    ensures { result ≡ icmp_part part.now direction moment }
{
    Part {
        kind: PartKind::Icmp,
        replied: replied_after(part, direction),
        assured: part.assured,
        deadline: deadline(moment, ICMP_TIMEOUT),
    }
}
