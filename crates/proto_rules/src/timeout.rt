//! How long an entry lives on after a packet, in seconds.

ghost use Rattle.std.specs.Prelude.{◌≡◌, ◌+◌, ◌≤◌, ◌^◌};
ghost use Rattle.proto_rules.specs.Part.{tcp_lifetime};
ghost use Rattle.proto_rules.specs.Timeout.{seconds, udp_timeout};

use crate::TcpState;

/// Microseconds of a second.
const SECOND: u64 = 1_000_000;

/// Of a connection that is taken for established while no reply was seen.
const UNANSWERED_TIMEOUT: u64 = 300;

/// Of a flow of ICMP.
pub const ICMP_TIMEOUT: u64 = 30;

/// The moment that is this many seconds after another.
#[inline(always)]
pub fn deadline(moment: u64, timeout: u64) -> u64
    requires moment { moment ≤ 10 ^ 16 }
    requires timeout { timeout ≤ 432000 }
    ensures { result ≡ moment + seconds timeout }
{
    moment + timeout * SECOND
}

/// Of a flow of UDP, by whether a reply was seen.
#[inline(always)]
pub fn udp_timeout(replied: bool) -> u64
    ensures exact { result ≡ udp_timeout replied }
    ensures small { result ≤ 432000 }
{
    if replied { 120 } else { 30 }
}

/// Of a connection in its new state, by whether a reply was seen before.
#[inline(always)]
pub fn tcp_lifetime(replied: bool, state: TcpState) -> u64
    ensures exact { result ≡ tcp_lifetime replied state }
    ensures small { result ≤ 432000 }
{
    match state {
        TcpState::Unset => 0,
        TcpState::SynSent => 120,
        TcpState::SynRecv => 60,
        TcpState::Established if !replied => UNANSWERED_TIMEOUT,
        TcpState::Established => 432_000,
        TcpState::FinWait => 120,
        TcpState::CloseWait => 60,
        TcpState::LastAck => 30,
        TcpState::TimeWait => 120,
        TcpState::Close => 10,
        TcpState::SynSent2 => 120,
    }
}
