// A column of Setup's rows from 3 on. The row that is filled is written from its last column down, in the column `mirror`.
#![tactic(auto)]

ghost use Rattle.std.specs.Prelude.{◌≡◌, ◌<◌, length};
ghost use Rattle.settings.specs.Settings.{settings};
ghost use Rattle.columns.specs.Bounds.{AtRows, Apart, Within};
ghost use Rattle.columns.specs.Columns.{work, mirrored, duplexed, setup_cells, setup_written, setup_column};

use cell_sums::sum3_at;
use columns::Starts;
use matrix::{cell, put_cell, write_rotated, xor_turned, xored};
use places::Column;
use profile::Profile;
use settings::Parameters;
use sponge::duplex::{duplex_each, output};

// What it duplexes.
fn duplex_setup(s: &mut [u64; 16], m: &[u64], rows: Starts, col: Column, p: Parameters)
    requires { (col.0 < p.columns) × Within p.columns rows (length m.now) }
    ensures { AtRows p.columns rows (λ r. s.new ≡ duplexed (settings p) (setup_cells (settings p) r col.0 m.now) s.old) }
{
    let row1 = cell(m, rows.row1, col);
    let prev0 = cell(m, rows.prev0, col);
    let prev1 = cell(m, rows.prev1, col);
    duplex_each(s, |j| sum3_at(row1, prev0, prev1, j), p.rounds, p.mixer);
}

// What it then writes. The usual rotation is written out here, so that it pays for a comparison and no more.
fn write_setup(
    m: &mut [u64],
    s: &[u64; 16],
    rows: Starts,
    col: Column,
    mirror: Column,
    p: Parameters,
)
    requires { (col.0 < p.columns) × (mirror.0 ≡ mirrored (settings p) col.0) × Within p.columns rows (length m.old) × Apart p.columns rows }
    ensures { AtRows p.columns rows (λ r. m.new ≡ setup_written (settings p) r col.0 s.now m.old) }
{
    let to = rows.row0.cell_start(mirror);
    let back = rows.row1.cell_start(col);
    if p.rotation != Profile::USUAL_ROTATION {
        let from = rows.prev0.cell_start(col);
        write_rotated(m, from, to, back, s, p.rotation);
        return;
    }
    let rand = output(s);
    let words = xored(cell(m, rows.prev0, col), &rand);
    put_cell(m, to, &words);
    xor_turned(m, back, &rand, Profile::USUAL_ROTATION);
}

pub fn setup_column(
    s: &mut [u64; 16],
    m: &mut [u64],
    rows: Starts,
    col: Column,
    mirror: Column,
    p: Parameters,
)
    requires { (col.0 < p.columns) × (mirror.0 ≡ mirrored (settings p) col.0) × Within p.columns rows (length m.old) × Apart p.columns rows }
    ensures { AtRows p.columns rows (λ r. work s.new m.new ≡ setup_column (settings p) r col.0 (work s.old m.old)) }
{
    duplex_setup(s, m, rows, col, p);
    write_setup(m, s, rows, col, mirror, p);
}
