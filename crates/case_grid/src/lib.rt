//! Tables by case: a grid of small numbers, and the tables of the tracker.
#![tactic(auto)]

ghost use Rattle.std.specs.Prelude.{◌≡◌, ◌<◌};
ghost use Rattle.case_grid.specs.Cell.{cell, cells_of};
ghost use Rattle.case_grid.specs.Droppable.{droppable_cells};
ghost use Rattle.case_grid.specs.FlagSets.{flag_sets};
ghost use Rattle.case_grid.specs.TcpTables.{tcp_original, tcp_reply};

/// Small numbers in `R` rows of `C` columns.
#[derive(Clone, Copy)]
pub struct Grid<const R: usize, const C: usize> {
    cells: [[u8; C]; R],
}

impl<const R: usize, const C: usize> Grid<R, C> {
    /// The grid of these rows.
    pub fn of(cells: [[u8; C]; R]) -> Grid<R, C>
        ensures { cells_of result ≡ cells.entry }
    {
        Grid { cells }
    }

    /// The cell in a row and a column, both counted from 0.
    pub fn at(&self, row: usize, column: usize) -> u8
        requires row { row < R }
        requires column { column < C }
        ensures { result ≡ cell (cells_of self.now) row column }
    {
        self.cells[row][column]
    }
}

/// The grid that is written out, a line for each row.
macro_rules! rows {
    ($($($cell:literal)+;)+) => {
        Grid { cells: [$([$($cell),+]),+] }
    };
}

/// The flag sets of TCP (RFC 9293): 1 where a segment may have the set. The row is 2 where URG is set,
/// and one more where ACK is; the column is 4 where RST is set, 2 more where SYN is, and one more where
/// FIN is. PSH, ECE and CWR are not looked at.
pub fn flag_sets() -> Grid<4, 8>
    ensures { cells_of result ≡ flag_sets }
{
    *flag_set_table()
}

/// The table of `flag_sets` where it lies: a look at one cell copies no table.
pub fn flag_set_table() -> &'static Grid<4, 8>
    ensures { cells_of result.now ≡ flag_sets }
{
    static CELLS: Grid<4, 8> = rows! {
        0 0 1 0 1 0 0 0;
        1 1 1 0 1 0 0 0;
        0 0 1 0 0 0 0 0;
        1 1 0 0 0 0 0 0;
    };
    &CELLS
}

/// The state of a connection after a packet in the original direction. The rows are the kinds of
/// segments: SYN, SYN and ACK, FIN, ACK, RST, none of these. The columns are the old states: none,
/// SYN_SENT, SYN_RECV, ESTABLISHED, FIN_WAIT, CLOSE_WAIT, LAST_ACK, TIME_WAIT, CLOSE, SYN_SENT2. A cell
/// below 10 is the number of the new state in that order; 10 is invalid, and 11 is ignored.
pub fn tcp_original() -> Grid<6, 10>
    ensures { cells_of result ≡ tcp_original }
{
    *tcp_original_table()
}

/// The table of `tcp_original` where it lies: a look at one cell copies no table.
#[tactic(auto, unfolding(crate::specs::TcpTables::tcp_original))]
pub fn tcp_original_table() -> &'static Grid<6, 10>
    ensures { cells_of result.now ≡ tcp_original }
{
    static CELLS: Grid<6, 10> = rows! {
        1 1 11 11 11 11 11 1 1 9;
        10 10 2 10 10 10 10 10 10 2;
        10 10 4 4 6 6 6 7 8 10;
        3 10 3 3 5 5 7 7 8 10;
        10 8 8 8 8 8 8 8 8 8;
        10 10 10 10 10 10 10 10 10 10;
    };
    &CELLS
}

/// The state of a connection after a packet in the reply direction, in the form of `tcp_original`.
pub fn tcp_reply() -> Grid<6, 10>
    ensures { cells_of result ≡ tcp_reply }
{
    *tcp_reply_table()
}

/// The table of `tcp_reply` where it lies: a look at one cell copies no table.
#[tactic(auto, unfolding(crate::specs::TcpTables::tcp_reply))]
pub fn tcp_reply_table() -> &'static Grid<6, 10>
    ensures { cells_of result.now ≡ tcp_reply }
{
    static CELLS: Grid<6, 10> = rows! {
        10 9 10 10 10 10 10 1 10 9;
        10 2 11 11 11 11 11 11 11 2;
        10 10 4 4 6 6 6 7 8 10;
        10 11 2 3 5 5 7 7 8 11;
        10 8 8 8 8 8 8 8 8 8;
        10 10 10 10 10 10 10 10 10 10;
    };
    &CELLS
}

/// Which entries a full table may drop for a new flow. The row is 2 for TCP and 0 otherwise, and one more
/// where the entry is assured. The column is the state of the connection, in the order of
/// `tcp_original`, and 0 for other protocols. 1 is an entry that may go.
pub fn droppable_cells() -> Grid<4, 10>
    ensures { cells_of result ≡ droppable_cells }
{
    *droppable_table()
}

/// The table of `droppable_cells` where it lies: a look at one cell copies no table.
#[tactic(auto, unfolding(crate::specs::Droppable::droppable_cells))]
pub fn droppable_table() -> &'static Grid<4, 10>
    ensures { cells_of result.now ≡ droppable_cells }
{
    static CELLS: Grid<4, 10> = rows! {
        1 1 1 1 1 1 1 1 1 1;
        0 0 0 0 0 0 0 0 0 0;
        1 1 1 1 1 1 1 1 1 1;
        0 0 0 0 1 1 1 1 1 0;
    };
    &CELLS
}
