//! Which entries a full table may drop, read from a grid of numbers.

ghost use Rattle.std.specs.Prelude.{◌≡◌, ◌+◌, ◌<◌};
ghost use Rattle.case_grid.specs.Cell.{cell};
ghost use Rattle.case_grid.specs.Droppable.{droppable_cells};
ghost use Rattle.proto_rules.specs.Droppable.{drop_column, drop_row, droppable, first_row};

use crate::{Part, PartKind};
use case_grid::droppable_table;

/// The first row of the grid for a protocol, that of entries that are not assured.
fn first_row(kind: PartKind) -> usize
    ensures exact { result ≡ first_row kind }
    ensures within { result < 3 }
{
    match kind {
        PartKind::Tcp(_) => 2,
        PartKind::Udp | PartKind::Icmp => 0,
    }
}

/// The row of the grid for a protocol and whether the entry is assured.
fn row(kind: PartKind, assured: bool) -> usize
    ensures exact { result ≡ drop_row kind assured }
    ensures within { result < 4 }
{
    if assured {
        first_row(kind) + 1
    } else {
        first_row(kind)
    }
}

/// The column of the grid for a protocol and its state.
fn column(kind: PartKind) -> usize
    ensures exact { result ≡ drop_column kind }
    ensures within { result < 10 }
{
    match kind {
        PartKind::Tcp(state) => state as usize,
        PartKind::Udp | PartKind::Icmp => 0,
    }
}

/// Whether a full table may drop an entry with this part for a new flow: one that is not assured, or a
/// connection that is coming to its end.
pub fn droppable(part: &Part) -> bool
    ensures { result ≡ droppable part.now }
{
    droppable_table().at(row(part.kind, part.assured), column(part.kind)) == 1
}
