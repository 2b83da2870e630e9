// The last cell, absorbed before the key is squeezed.
#![tactic(auto)]

ghost use Rattle.std.specs.Prelude.{◌≡◌, ◌+◌, ◌*◌, ◌≤◌, length};
ghost use Rattle.profile.specs.Profile.{cell_words};
ghost use Rattle.settings.specs.Settings.{settings};
ghost use Rattle.columns.specs.Columns.{work};
ghost use Rattle.last_cell.specs.LastCell.{last_absorbed};

use matrix::cell;
use places::{Column, Row, RowStart};
use settings::Parameters;
use sponge::duplex::absorb_cell;

// The first cell of a row, absorbed with a full call.
pub fn absorb_last(s: &mut [u64; 16], m: &[u64], row0: Row, p: Parameters)
    requires { (1 ≤ p.columns) × (cell_words * (row0.0 * p.columns + p.columns) ≤ length m.now) }
    ensures { s.new ≡ last_absorbed (settings p) row0.0 (work s.old m.now) }
{
    absorb_cell(
        s,
        cell(m, RowStart::of(row0, p.columns), Column(0)),
        p.mixer,
    );
}
