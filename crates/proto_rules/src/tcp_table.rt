//! The tables of TCP, read from grids of numbers.

ghost use Rattle.std.specs.Prelude.{◌≡◌, ◌<◌};
ghost use Rattle.case_grid.specs.Cell.{cell};
ghost use Rattle.proto_rules.specs.TcpGrid.{grid_of, number_of, row_of};
ghost use Rattle.proto_rules.specs.TcpTable.{column_of, tcp_cell};

use crate::TcpState;
use case_grid::{tcp_original_table, tcp_reply_table};
use tuple_core::{Direction, Kind};

/// What a segment does to a connection in some state.
#[derive(Clone, Copy)]
pub enum Cell {
    /// The connection goes on in this state.
    To(TcpState),
    /// The segment passes, and the connection stays as it is.
    Ignored,
    /// The connection has no place for such a segment in this state.
    Invalid,
}

/// The row of the grids for a kind of segment.
#[inline(always)]
fn row(tcp_kind: Kind) -> usize
    ensures exact { result ≡ row_of tcp_kind }
    ensures within { result < 6 }
{
    tcp_kind as usize
}

/// The column of the grids for an old state.
#[inline(always)]
fn column(state: TcpState) -> usize
    ensures exact { result ≡ column_of state }
    ensures within { result < 10 }
{
    state as usize
}

/// The number in a row and a column of the grid for the segments in a direction.
#[inline(always)]
fn number_at(direction: Direction, row: usize, column: usize) -> u8
    requires row { row < 6 }
    requires column { column < 10 }
    ensures { result ≡ cell (grid_of direction) row column }
{
    match direction {
        Direction::Original => tcp_original_table().at(row, column),
        Direction::Reply => tcp_reply_table().at(row, column),
    }
}

/// The cell that a number of the grids stands for.
#[inline(always)]
fn read_cell(number: u8) -> Cell
    requires { number < 12 }
    ensures { number_of result ≡ number }
{
    match number {
        0 => Cell::To(TcpState::Unset),
        1 => Cell::To(TcpState::SynSent),
        2 => Cell::To(TcpState::SynRecv),
        3 => Cell::To(TcpState::Established),
        4 => Cell::To(TcpState::FinWait),
        5 => Cell::To(TcpState::CloseWait),
        6 => Cell::To(TcpState::LastAck),
        7 => Cell::To(TcpState::TimeWait),
        8 => Cell::To(TcpState::Close),
        9 => Cell::To(TcpState::SynSent2),
        10 => Cell::Invalid,
        11 => Cell::Ignored,
        _ => unreachable!(),
    }
}

/// What a segment of this kind and direction does to a connection in a state.
#[inline(always)]
pub fn tcp_cell(direction: Direction, tcp_kind: Kind, state: TcpState) -> Cell
    ensures { result ≡ tcp_cell direction tcp_kind state }
{
    read_cell(number_at(direction, row(tcp_kind), column(state)))
}
