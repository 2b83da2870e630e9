// A column of a visit: the hot path of a derivation.
#![tactic(auto)]

ghost use Rattle.std.specs.Prelude.{◌≡◌, ◌<◌, length};
ghost use Rattle.settings.specs.Settings.{settings};
ghost use Rattle.columns.specs.Bounds.{AtRows, Within, Picked};
ghost use Rattle.columns.specs.Columns.{duplexed, visit_cells, visit_written};

use cell_sums::sum4_at;
use columns::{Picks, Starts};
use matrix::{cell, write_rotated, xor_cell, xor_turned};
use picks::pick_columns;
use places::Column;
use profile::Profile;
use settings::Parameters;
use sponge::duplex::{duplex_each, output};

// What it duplexes.
fn duplex_visit(s: &mut [u64; 16], m: &[u64], rows: Starts, col: Column, at: Picks, p: Parameters)
    requires { (col.0 < p.columns) × (at.col0.0 < p.columns) × (at.col1.0 < p.columns) × Within p.columns rows (length m.now) }
    ensures { AtRows p.columns rows (λ r. s.new ≡ duplexed (settings p) (visit_cells (settings p) r col.0 at m.now) s.old) }
{
    let row0 = cell(m, rows.row0, col);
    let row1 = cell(m, rows.row1, col);
    let prev0 = cell(m, rows.prev0, at.col0);
    let prev1 = cell(m, rows.prev1, at.col1);
    duplex_each(
        s,
        |j| sum4_at(row0, row1, prev0, prev1, j),
        p.rounds,
        p.mixer,
    );
}

// What it then writes; where the two rows are one, both XORs fall on the same cell. The usual rotation is
// written out here, so that it pays for a comparison and no more.
fn write_visit(m: &mut [u64], s: &[u64; 16], rows: Starts, col: Column, p: Parameters)
    requires { (col.0 < p.columns) × Within p.columns rows (length m.old) }
    ensures { AtRows p.columns rows (λ r. m.new ≡ visit_written (settings p) r col.0 s.now m.old) }
{
    let a = rows.row0.cell_start(col);
    let b = rows.row1.cell_start(col);
    if p.rotation != Profile::USUAL_ROTATION {
        write_rotated(m, a, a, b, s, p.rotation);
        return;
    }
    let rand = output(s);
    xor_cell(m, a, &rand);
    xor_turned(m, b, &rand, Profile::USUAL_ROTATION);
}

// A column of a visit with the columns that were picked for it; the answer is those for the next one.
pub fn visit_column(
    s: &mut [u64; 16],
    m: &mut [u64],
    rows: Starts,
    col: Column,
    at: Picks,
    p: Parameters,
) -> Picks
    requires { (col.0 < p.columns) × (at.col0.0 < p.columns) × (at.col1.0 < p.columns) × Within p.columns rows (length m.old) }
    ensures { Picked (settings p) s.new result × AtRows p.columns rows (λ r. s.new ≡ duplexed (settings p) (visit_cells (settings p) r col.0 at m.old) s.old) × AtRows p.columns rows (λ r. m.new ≡ visit_written (settings p) r col.0 s.new m.old) }
{
    duplex_visit(s, m, rows, col, at, p);
    write_visit(m, s, rows, col, p);
    pick_columns(s, p)
}
