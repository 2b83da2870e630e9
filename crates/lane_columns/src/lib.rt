// A column of a lane's visit: the hot path of a derivation with several lanes.
#![tactic(auto)]

ghost use Rattle.std.specs.Prelude.{◌≡◌, ◌<◌, length};
ghost use Rattle.settings.specs.Settings.{settings};
ghost use Rattle.columns.specs.Bounds.{AtRows, Within};
ghost use Rattle.columns.specs.Columns.{work};
ghost use Rattle.lane_columns.specs.LaneColumns.{lane_column};

use cell_sums::sum3_at;
use columns::Starts;
use matrix::{cell, xor_cell};
use picks::pick_columns;
use places::Column;
use settings::Parameters;
use sponge::duplex::{duplex_each, output};

pub fn lane_column(s: &mut [u64; 16], m: &mut [u64], rows: Starts, col: Column, p: Parameters)
    requires { (col.0 < p.columns) × Within p.columns rows (length m.old) }
    ensures { AtRows p.columns rows (λ r. work s.new m.new ≡ lane_column (settings p) r col.0 (work s.old m.old)) }
{
    // The word that picks col1 of a visit by one sponge picks the column of prev0 here.
    let picks = pick_columns(s, p);
    let row0 = cell(m, rows.row0, col);
    let prev0 = cell(m, rows.prev0, picks.col1);
    let row1 = cell(m, rows.row1, col);
    duplex_each(s, |j| sum3_at(row0, prev0, row1, j), p.rounds, p.mixer);
    let at = rows.row0.cell_start(col);
    let rand = output(s);
    xor_cell(m, at, &rand);
}
