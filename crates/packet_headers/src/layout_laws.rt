//! What packets are that are laid out from a tuple: each law is the contract of a function that does nothing.

ghost use Rattle.packet_headers.specs.LayoutLaws.{ErrorLayoutsAreErrors, IcmpLayoutsAreFlows, TcpLayoutsAreFlows, UdpLayoutsAreFlows};

/// A packet of UDP that is laid out from a tuple, under Ethernet or alone, is of that tuple's flow.
pub fn udp_layouts_are_flows()
    ensures { UdpLayoutsAreFlows }
{}

/// So is a segment of TCP, and its kind is that of its control bits, if these go together.
pub fn tcp_layouts_are_flows()
    ensures { TcpLayoutsAreFlows }
{}

/// So is a message of ICMP that asks or answers.
pub fn icmp_layouts_are_flows()
    ensures { IcmpLayoutsAreFlows }
{}

/// An error of ICMP that is laid out from a tuple is about that tuple's flow.
pub fn error_layouts_are_errors()
    ensures { ErrorLayoutsAreErrors }
{}
