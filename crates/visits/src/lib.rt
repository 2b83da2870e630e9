// A visit of Wandering, and a record of what it picked where the caller lends one.
#![tactic(auto)]

ghost use Rattle.std.specs.Prelude.{◌≡◌, ◌+◌, ◌<◌, ◌^◌, [], length};
ghost use Rattle.lists.specs.Zip.{zip_at};
ghost use Rattle.settings.specs.Settings.{settings};
ghost use Rattle.settings.specs.Sizes.{visit_words};
ghost use Rattle.columns.specs.Bounds.{starts_of, Within};
ghost use Rattle.columns.specs.Columns.{work};
ghost use Rattle.visits.specs.Visits.{walk, picked_rows, visit_columns, column_picks};
ghost use Rattle.visits.specs.Encoding.{encode_picks};
ghost use Rattle.visits.specs.Wandered.{Packable, Ready, OneVisit};

use columns::{Rows, Starts};
use packing::note;
use picks::{pick_columns, picked, place_after};
use places::{Column, Row};
use settings::Parameters;
use visit_columns::visit_column;

// A visit's columns; the record gets their picks from place `at` on. The answer counts the reduced calls.
fn visit_row(
    s: &mut [u64; 16],
    m: &mut [u64],
    rows: Rows,
    p: Parameters,
    record: &mut [u64],
    at: usize,
) -> u64
    requires { Packable (settings p) × Within p.columns (starts_of p.columns rows) (length m.old) × (at + p.columns < 2 ^ 64) }
    ensures { (result ≡ p.columns) × (work s.new m.new ≡ visit_columns (settings p) rows p.columns (work s.old m.old)) × («record».new ≡ zip_at (λ x y. y) at «record».old (encode_picks (column_picks (settings p) rows p.columns (work s.old m.old)))) }
{
    let starts = Starts::of(rows, p.columns);
    let mut next = pick_columns(s, p);
    let mut calls: u64 = 0;
    for col in 0..p.columns {
        note(record, at + col, next.col0.0, next.col1.0);
        next = visit_column(s, m, starts, Column(col), next, p);
        calls += 1;
    }
    calls
}

// The rows that a visit picks from the output, with those of the visit before.
fn pick_rows(s: &[u64; 16], prev0: Row, prev1: Row, p: Parameters) -> Rows
    requires { 0 < p.rows }
    ensures { (result.row0.0 < p.rows) × (result.row1.0 < p.rows) × (result ≡ picked_rows (settings p) (walk (work s.now []) prev0.0 prev1.0)) }
{
    Rows {
        row0: Row(picked(s[0], p.rows)),
        row1: Row(picked(s[place_after(0, p.rotation)], p.rows)),
        prev0,
        prev1,
    }
}

// What visits leave: the rows of the last one, and the reduced calls that were made.
#[derive(Clone, Copy)]
pub struct Visited {
    pub row0: Row,
    pub row1: Row,
    pub calls: u64,
}

// One visit; the record gets it from place `at` on.
pub fn visit(
    s: &mut [u64; 16],
    m: &mut [u64],
    prev0: Row,
    prev1: Row,
    p: Parameters,
    record: &mut [u64],
    at: usize,
) -> Visited
    requires { Ready (settings p) prev0.0 prev1.0 (length m.old) × (at + visit_words (settings p) < 2 ^ 63) }
    ensures { OneVisit (settings p) at (walk (work s.old m.old) prev0.0 prev1.0) (walk (work s.new m.new) result.row0.0 result.row1.0) «record».old «record».new result.calls }
{
    let r = pick_rows(s, prev0, prev1, p);
    note(record, at, r.row0.0, r.row1.0);
    let calls = visit_row(s, m, r, p, record, at + 1);
    Visited {
        row0: r.row0,
        row1: r.row1,
        calls,
    }
}
