//! Values of the options of a rule or of a command.

ghost use Rattle.std.specs.Prelude.{◌≡◌};
ghost use Rattle.file_text.specs.Protocols.{has_ports, proto_named};
ghost use Rattle.file_text.specs.Reading.{once};

use tuple_core::Proto;

/// The option with the value that was read for it, where it has none yet; else this fault.
pub fn once<T: Copy, K: Copy>(old: Option<T>, read: Result<T, K>, fault: K) -> Result<Option<T>, K>
    ensures { result ≡ once fault old read }
{
    match (old, read) {
        (Some(_), _) => Err(fault),
        (None, Ok(value)) => Ok(Some(value)),
        (None, Err(kind)) => Err(kind),
    }
}

/// The protocol of this name.
#[tactic(auto, unfolding(crate::specs::Protocols::proto_named))]
pub fn read_proto(word: &[u8]) -> Option<Proto>
    ensures { result ≡ proto_named word.now }
{
    match word {
        b"tcp" => Some(Proto::Tcp),
        b"udp" => Some(Proto::Udp),
        b"icmp" => Some(Proto::Icmp),
        _ => None,
    }
}

/// Whether there is a protocol, and it has ports.
pub fn has_ports(proto: Option<Proto>) -> bool
    ensures { result ≡ has_ports proto }
{
    match proto {
        Some(Proto::Tcp) => true,
        Some(Proto::Udp) => true,
        Some(Proto::Icmp) => false,
        None => false,
    }
}
