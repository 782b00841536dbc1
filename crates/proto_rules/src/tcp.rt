//! How a segment of TCP begins an entry, and what it does to one.

ghost use Rattle.std.specs.Prelude.{◌≡◌, ◌≤◌, ◌^◌};
ghost use Rattle.proto_rules.specs.Start.{tcp_start};
ghost use Rattle.proto_rules.specs.Step.{is_rst, reopens, tcp_step};
ghost use Rattle.proto_rules.specs.TcpTable.{tcp_cell};

use crate::accepted::{begin, tcp_part};
use crate::timeout::tcp_lifetime;
use crate::{Cell, Outcome, Part, PartKind, TcpState, tcp_cell};
use tuple_core::{Direction, Kind};

/// The part of the entry that begins with this segment, if one does.
#[inline(always)]
pub fn tcp_start(tcp_kind: Kind, moment: u64) -> Option<Part>
    requires { moment ≤ 10 ^ 16 }
    ensures { result ≡ tcp_start (tcp_cell Direction.Original tcp_kind TcpState.Unset) moment }
{
    match tcp_cell(Direction::Original, tcp_kind, TcpState::Unset) {
        Cell::To(state) => {
            let timeout = tcp_lifetime(false, state);
            Some(begin(PartKind::Tcp(state), timeout, moment))
        }
        Cell::Ignored | Cell::Invalid => None,
    }
}

/// Whether a segment begins a new connection in place of one that was closed.
#[inline(always)]
fn reopens(old: TcpState, new: TcpState) -> bool
    ensures { result ≡ reopens old new }
{
    matches!(old, TcpState::TimeWait | TcpState::Close) && matches!(new, TcpState::SynSent)
}

/// What a segment does to a connection in this state.
#[inline(always)]
pub fn tcp_step(
    part: &Part,
    state: TcpState,
    direction: Direction,
    tcp_kind: Kind,
    moment: u64,
) -> Outcome
    requires { moment ≤ 10 ^ 16 }
    ensures { result ≡ tcp_step part.now direction state tcp_kind moment }
{
    if matches!(tcp_kind, Kind::Rst) && !part.replied {
        return Outcome::Reset;
    }
    match tcp_cell(direction, tcp_kind, state) {
        Cell::To(new) if reopens(state, new) => Outcome::Reopen,
        Cell::To(new) => Outcome::Accept(tcp_part(part, direction, state, new, moment)),
        Cell::Ignored => Outcome::Ignore,
        Cell::Invalid => Outcome::Invalid,
    }
}
