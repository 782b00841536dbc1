//! The test of two parts.

ghost use Rattle.std.specs.Prelude.{◌≡◌};
ghost use Rattle.proto_rules.specs.Same.{same_kind, same_part};
ghost use Rattle.proto_rules.specs.TcpTable.{same_state};

use crate::{Part, PartKind, TcpState};

/// Whether two states are equal.
fn is_same_state(s: TcpState, t: TcpState) -> bool
    ensures { result ≡ same_state s t }
{
    s as usize == t as usize
}

/// Whether two parts are of one protocol and in one state of it.
fn is_same_kind(p: PartKind, q: PartKind) -> bool
    ensures { result ≡ same_kind p q }
{
    match (p, q) {
        (PartKind::Tcp(s), PartKind::Tcp(t)) => is_same_state(s, t),
        (PartKind::Udp, PartKind::Udp) | (PartKind::Icmp, PartKind::Icmp) => true,
        (PartKind::Tcp(_), PartKind::Udp | PartKind::Icmp)
        | (PartKind::Udp, PartKind::Tcp(_) | PartKind::Icmp)
        | (PartKind::Icmp, PartKind::Tcp(_) | PartKind::Udp) => false,
    }
}

/// Whether two parts are equal.
pub fn is_same_part(p: &Part, q: &Part) -> bool
    ensures { result ≡ same_part p.now q.now }
{
    is_same_kind(p.kind, q.kind)
        && p.replied == q.replied
        && p.assured == q.assured
        && p.deadline == q.deadline
}
