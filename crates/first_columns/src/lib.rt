// A column of Setup's first three rows. The row that is filled is written from its last column down, in the column `mirror`.
#![tactic(auto)]

ghost use Rattle.std.specs.Prelude.{◌≡◌, ◌+◌, ◌≤◌, ◌<◌, length};
ghost use Rattle.lists.specs.Zip.{zip_at};
ghost use Rattle.mixer.specs.Mixers.{sum_of};
ghost use Rattle.permutation.specs.Round.{rounds};
ghost use Rattle.profile.specs.Profile.{cell_words};
ghost use Rattle.sponge.specs.Sponge.{rand};
ghost use Rattle.settings.specs.Settings.{settings};
ghost use Rattle.places.specs.Places.{cell_start, AtRow};
ghost use Rattle.columns.specs.Columns.{work, mirrored, copy_column};

use matrix::{cell, put_cell, xored};
use places::{Column, RowStart};
use settings::Parameters;
use sponge::duplex::{duplex, output, reduced_call};

// A column of row 0.
pub fn fill_column(s: &mut [u64; 16], m: &mut [u64], row0: RowStart, mirror: Column, p: Parameters)
    requires { cell_start row0 mirror.0 + cell_words ≤ length m.old }
    ensures { (s.new ≡ rounds (sum_of p.mixer) p.rounds s.old) × (m.new ≡ zip_at (λ x y. y) (cell_start row0 mirror.0) m.old (rand s.old)) }
{
    let at = row0.cell_start(mirror);
    let rand = output(s);
    put_cell(m, at, &rand);
    reduced_call(s, p.rounds, p.mixer);
}

// A column of row 1 or 2.
pub fn copy_column(
    s: &mut [u64; 16],
    m: &mut [u64],
    prev0: RowStart,
    row0: RowStart,
    col: Column,
    mirror: Column,
    p: Parameters,
)
    requires { (col.0 < p.columns) × (mirror.0 ≡ mirrored (settings p) col.0) × (cell_start prev0 p.columns ≤ length m.old) × (cell_start row0 p.columns ≤ length m.old) }
    ensures { AtRow p.columns prev0 (λ q. AtRow p.columns row0 (λ r. work s.new m.new ≡ copy_column (settings p) q r col.0 (work s.old m.old))) }
{
    duplex(s, cell(m, prev0, col), p.rounds, p.mixer);
    let to = row0.cell_start(mirror);
    let rand = output(s);
    let words = xored(cell(m, prev0, col), &rand);
    put_cell(m, to, &words);
}
