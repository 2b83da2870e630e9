// Rows and columns of the lent matrix, and the words where rows and cells start.
#![tactic(auto)]

ghost use Rattle.std.specs.Prelude.{◌≡◌, ◌<◌, ◌^◌};
ghost use Rattle.places.specs.Places.{row_start, first_word, cell_start};

use profile::Profile;

// Rows and columns count different things; neither can be given where the other belongs.
#[derive(Clone, Copy)]
pub struct Row(pub usize);

#[derive(Clone, Copy)]
pub struct Column(pub usize);

// The first word of a row. Its field is not public: `of` alone makes one.
#[derive(Clone, Copy)]
pub struct RowStart(usize);

impl RowStart {
    // Where a row of so many columns starts.
    pub fn of(row: Row, columns: usize) -> RowStart
        requires { row_start columns row.0 < 2 ^ 64 }
        ensures { first_word result ≡ row_start columns row.0 }
    {
        RowStart(Profile::CELL_WORDS * (row.0 * columns))
    }

    // Where the cell in a column of the row starts.
    pub fn cell_start(self, col: Column) -> usize
        requires { cell_start self col.0 < 2 ^ 64 }
        ensures { result ≡ cell_start self col.0 }
    {
        self.0 + Profile::CELL_WORDS * col.0
    }
}
