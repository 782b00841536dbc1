//! The ports with which the headers of TCP and UDP begin.

ghost use Rattle.std.specs.Prelude.{◌≡◌, ◌+◌, ◌≤◌, length, true};
ghost use Rattle.tuple_core.specs.Tuple.{is_valid};
ghost use Rattle.packet_headers.specs.Ports.{has_ports, ports_tuple};

use crate::byte_order::big_u16_at;
use crate::classify::ipv4::Addresses;
use tuple_core::{Proto, Tuple};

/// The bytes of the two ports.
pub const PORTS: usize = 4;

/// The tuple with the ports at `at`.
#[tactic(auto, using(crate::proofs::Ports::has_flow_by_ports))]
#[inline(always)]
pub fn ports_tuple(proto: Proto, addresses: Addresses, bytes: &[u8], at: usize) -> Tuple
    requires room { at + 4 ≤ length bytes.now }
    requires ports { has_ports proto ≡ true }
    ensures exact { result ≡ ports_tuple proto addresses bytes.now at }
    ensures valid { is_valid result ≡ true }
{
    Tuple {
        proto,
        zone: 0,
        src: addresses.source,
        dst: addresses.destination,
        a: big_u16_at(bytes, at),
        b: big_u16_at(bytes, at + 2),
    }
}
