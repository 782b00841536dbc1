//! A packet of a flow, as the tracker reads it.

ghost use Rattle.std.specs.Prelude.{◌≡◌, ◌≤◌, ◌^◌, true};
ghost use Rattle.tuple_core.specs.Tuple.{is_valid};
ghost use Rattle.packet_headers.specs.ClassifySound.{protocol_of};
ghost use Rattle.packet_headers.specs.Span.{IsSpanIn};
ghost use Rattle.packet_headers.specs.declared.packet.Packet.TheVariants.{Flow};
ghost use Rattle.packet_path.specs.Internal.Attempt.{IsClassified};
ghost use Rattle.packet_path.specs.Packet.{bytes_in, flow_packet, given_by, IsFlow, packet_in};

use packet_headers::frame::Span;
use tuple_core::{Segment, Tuple};

/// What the tracker reads of a packet of a flow: its headers, its moment in microseconds, and its payload as
/// far as it was captured, which lies in the file's bytes.
#[derive(Clone, Copy)]
pub struct FlowView<'p> {
    pub tuple: Tuple,
    pub segment: Segment,
    pub moment: u64,
    pub payload: &'p [u8],
}

/// The bytes of a file in a span.
#[inline(always)]
fn bytes_in(bytes: &[u8], span: Span) -> &[u8]
    requires { IsSpanIn bytes.now span }
    ensures { result.now ≡ bytes_in bytes.now span }
{
    let (front, _) = bytes.split_at(span.end);
    let (_, inside) = front.split_at(span.start);
    inside
}

/// The packet of a flow that is in a zone, of a file with these bytes, by what its headers say.
#[inline(always)]
pub(crate) fn flow_in<'b>(
    bytes: &'b [u8],
    tuple: &Tuple,
    segment: Segment,
    payload: Span,
    moment: u64,
    zone: u16,
) -> FlowView<'b>
    requires valid { is_valid tuple.now ≡ true }
    requires protocol { tuple.now.proto ≡ protocol_of segment }
    requires inside { IsSpanIn bytes.now payload }
    requires timely { moment ≤ 10 ^ 16 }
    ensures flow { IsFlow (given_by bytes.now (packet_in zone (Flow tuple.now segment payload)) moment) (flow_packet result) }
    ensures classified { IsClassified (flow_packet result) }
{
    FlowView {
        tuple: tuple.in_zone(zone),
        segment,
        moment,
        payload: bytes_in(bytes, payload),
    }
}
