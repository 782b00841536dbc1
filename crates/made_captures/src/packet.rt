//! The packets of made captures.

ghost use Rattle.std.specs.Prelude.{◌≡◌, ◌<◌, true};
ghost use Rattle.tuple_core.specs.Tuple.{is_valid};
ghost use Rattle.made_captures.specs.MadePacket.{client_number, client_of, control_bits, directed, first_tuple, made_direction, made_proto};

use tuple_core::{Direction, Proto, Tuple, invert};

/// The address of the server, 198.51.100.1.
const SERVER: u32 = 0xc633_6401;

/// An echo request, in the place of ports.
const ECHO: u16 = 0x0800;

/// The protocol of a flow.
#[tactic(auto, unfolding(crate::specs::MadePacket::made_proto))]
pub fn made_proto(seed: u32, flow: u32) -> Proto
    requires { flow < 65536 }
    ensures { result ≡ made_proto seed flow }
{
    match (seed % 3 + flow) % 3 {
        0 => Proto::Udp,
        1 => Proto::Tcp,
        _ => Proto::Icmp,
    }
}

/// The way of a packet of a flow.
pub fn made_direction(proto: Proto, step: u32) -> Direction
    ensures { result ≡ made_direction proto step }
{
    let answers = match proto {
        Proto::Udp | Proto::Icmp => step % 2 == 1,
        Proto::Tcp => step == 1,
    };
    if answers {
        Direction::Reply
    } else {
        Direction::Original
    }
}

/// The address of a flow's client.
pub fn client_of(thread: u8, flow: u32) -> u32
    requires { flow < 65536 }
    ensures { result ≡ client_of thread flow }
{
    0x0a00_0000 + u32::from(thread) * 0x1_0000 + flow
}

/// The tuple of a flow's first packet.
pub fn first_tuple(proto: Proto, client: u32, number: u16) -> Tuple
    ensures exact { result ≡ first_tuple proto client number }
    ensures valid { is_valid result ≡ true }
{
    let b = match proto {
        Proto::Udp => 53,
        Proto::Tcp => 80,
        Proto::Icmp => ECHO,
    };
    Tuple {
        proto,
        zone: 0,
        src: client,
        dst: SERVER,
        a: number,
        b,
    }
}

/// The tuple of a packet that goes this way.
pub fn directed(direction: Direction, t: &Tuple) -> Tuple
    requires { is_valid t.now ≡ true }
    ensures { result ≡ directed direction t.now }
{
    match direction {
        Direction::Original => *t,
        Direction::Reply => invert(t),
    }
}

/// The client's port; of ICMP the identifier.
pub fn client_number(seed: u32) -> u16
    ensures { result ≡ client_number seed }
{
    (1024 + seed % 60000) as u16
}

/// The control bits of a packet of a connection.
pub fn control_bits(step: u32) -> u8
    ensures { result ≡ control_bits step }
{
    match step {
        0 => 0x02,
        1 => 0x12,
        2 => 0x10,
        _ => 0x04,
    }
}
