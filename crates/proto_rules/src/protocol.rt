//! The protocol of a segment and that of an entry.

ghost use Rattle.std.specs.Prelude.{◌≡◌};
ghost use Rattle.proto_rules.specs.Protocol.{is_of_protocol, proto_of};

use crate::PartKind;
use tuple_core::{Proto, Segment};

/// The protocol that a part is of.
pub fn proto_of(kind: PartKind) -> Proto
    ensures { result ≡ proto_of kind }
{
    match kind {
        PartKind::Tcp(_) => Proto::Tcp,
        PartKind::Udp => Proto::Udp,
        PartKind::Icmp => Proto::Icmp,
    }
}

/// Whether the segment is of the entry's protocol.
pub fn is_of_protocol(segment: Segment, kind: PartKind) -> bool
    ensures { result ≡ is_of_protocol segment kind }
{
    match (segment, kind) {
        (Segment::Tcp(_), PartKind::Tcp(_))
        | (Segment::Udp, PartKind::Udp)
        | (Segment::Icmp(_), PartKind::Icmp) => true,
        (Segment::Tcp(_), PartKind::Udp | PartKind::Icmp)
        | (Segment::Udp, PartKind::Tcp(_) | PartKind::Icmp)
        | (Segment::Icmp(_), PartKind::Tcp(_) | PartKind::Udp) => false,
    }
}
