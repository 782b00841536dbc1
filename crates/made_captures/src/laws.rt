//! What holds of all made captures: each law is the contract of a function that does nothing but cite other laws.

ghost use Rattle.made_captures.specs.Laws.{MadeCapturesHaveNoFault, MadeCapturesHaveNoOtherFrames, MadeCapturesHaveTheirFrames, MadeClientsAreApart, MadeFramesAreFlows, MadeFramesHaveTheirPackets};

use packet_headers::capture_laws::{captures_are_unique, captures_have_no_fault};
use packet_headers::layout_laws::{
    icmp_layouts_are_flows, tcp_layouts_are_flows, udp_layouts_are_flows,
};

/// A made capture is read: it has a frame for each of its packets, in their order, and no fault.
pub fn made_captures_are_read()
    ensures frames { MadeCapturesHaveTheirFrames }
    ensures no_others { MadeCapturesHaveNoOtherFrames }
    ensures no_fault { MadeCapturesHaveNoFault }
{
    captures_are_unique();
    captures_have_no_fault();
}

/// The captured bytes of each frame are its packet.
pub fn made_frames_have_their_packets()
    ensures { MadeFramesHaveTheirPackets }
{}

/// Each frame is classified as a packet of its flow, in its direction, with the segment of its step.
pub fn made_frames_are_flows()
    ensures { MadeFramesAreFlows }
{
    udp_layouts_are_flows();
    tcp_layouts_are_flows();
    icmp_layouts_are_flows();
}

/// No two flows have one client, whatever their threads.
pub fn made_clients_are_apart()
    ensures { MadeClientsAreApart }
{}
