// The rows and columns that one column of Setup or of a visit works on, and where those rows start; what it does is defined in
// specs/.
#![tactic(auto)]

ghost use Rattle.std.specs.Prelude.{◌≡◌, ◌^◌};
ghost use Rattle.columns.specs.Bounds.{starts_of, Within};

use places::{Column, Row, RowStart};

// The rows of a Setup step or of a visit, and those of the one before it.
#[derive(Clone, Copy)]
pub struct Rows {
    pub row0: Row,
    pub row1: Row,
    pub prev0: Row,
    pub prev1: Row,
}

// Where they start, found once before the loop over the columns.
#[derive(Clone, Copy)]
pub struct Starts {
    pub row0: RowStart,
    pub row1: RowStart,
    pub prev0: RowStart,
    pub prev1: RowStart,
}

impl Starts {
    pub fn of(rows: Rows, columns: usize) -> Starts
        requires { Within columns (starts_of columns rows) (2 ^ 63) }
        ensures { result ≡ starts_of columns rows }
    {
        Starts {
            row0: RowStart::of(rows.row0, columns),
            row1: RowStart::of(rows.row1, columns),
            prev0: RowStart::of(rows.prev0, columns),
            prev1: RowStart::of(rows.prev1, columns),
        }
    }
}

// The columns of the previous rows that a visit picks.
#[derive(Clone, Copy)]
pub struct Picks {
    pub col0: Column,
    pub col1: Column,
}
