// The visits of one lane.
#![tactic(auto)]

ghost use Rattle.std.specs.Prelude.{◌≡◌, ◌*◌, ◌+◌, ◌/◌, ◌%◌, ◌<◌, ◌≤◌, ◌^◌, length};
ghost use Rattle.settings.specs.Settings.{settings};
ghost use Rattle.columns.specs.Bounds.{starts_of, Within};
ghost use Rattle.columns.specs.Columns.{work};
ghost use Rattle.lanes.specs.LaneVisits.{half_row, picked_lane_rows, visited_row, visit_of, visits_of};
ghost use Rattle.lanes.specs.LaneLists.{walk};
ghost use Rattle.lanes.specs.Room.{Room};

use columns::{Rows, Starts};
use lane_columns::lane_column;
use lanes::Lane;
use picks::{picked, place_after};
use places::{Column, Row};
use settings::Parameters;

// The columns of a visit. The answer counts the reduced calls.
fn visit_row(s: &mut [u64; 16], m: &mut [u64], rows: Rows, p: Parameters) -> u64
    requires { Within p.columns (starts_of p.columns rows) (length m.old) }
    ensures { (result ≡ p.columns) × (work s.new m.new ≡ visited_row (settings p) rows (work s.old m.old)) }
{
    let starts = Starts::of(rows, p.columns);
    let mut calls = 0;
    for col in 0..p.columns {
        lane_column(s, m, starts, Column(col), p);
        calls += 1;
    }
    calls
}

// Row x of a half of lane i: of the first half where t is even, and of the second where it is odd.
fn half_row(n: usize, i: usize, t: usize, x: usize) -> usize
    requires { (x < n / 2) × (i * n + n < 2 ^ 32) }
    ensures { (result ≡ half_row n i t x) × (i * n ≤ result) × (result < i * n + n) }
{
    i * n + (t % 2 * (n / 2) + x)
}

// A lane's turn: lane i of so many with so many rows each, in interval t.
#[derive(Clone, Copy)]
pub struct Turn {
    pub lanes: usize,
    pub rows: usize,
    pub i: usize,
    pub t: usize,
    pub ghost among: { i < lanes },
    pub ghost early: { t < 2 ^ 32 },
}

// The rows that a lane picks from its output, with the one that it visited before.
fn pick_rows(lane: &Lane, turn: Turn, p: Parameters) -> Rows
    requires { (4 ≤ turn.rows) × (turn.lanes * turn.rows < 2 ^ 31) }
    ensures { (result ≡ picked_lane_rows (settings p) turn.lanes turn.rows turn.t turn.i lane.now.state lane.now.prev) × (result.row0.0 < turn.lanes * turn.rows) × (result.row1.0 < turn.lanes * turn.rows) }
{
    let s = &lane.state;
    let n = turn.rows;
    let second = place_after(0, p.rotation);
    let third = place_after(second, p.rotation);
    let row0 = Row(half_row(n, turn.i, turn.t, picked(s[0], n / 2)));
    let other = picked(s[third], turn.lanes);
    let row1 = Row(half_row(n, other, turn.t + 1, picked(s[second], n / 2)));
    let prev = Row(lane.prev);
    Rows {
        row0,
        row1,
        prev0: prev,
        prev1: prev,
    }
}

// One visit. The answer counts the reduced calls.
fn visit(lane: &mut Lane, m: &mut [u64], turn: Turn, p: Parameters) -> u64
    requires { Room p.columns turn.lanes turn.rows (length m.old) × (lane.old.prev < turn.lanes * turn.rows) }
    ensures { (result ≡ p.columns) × (lane.new.prev < turn.lanes * turn.rows) × (walk lane.new m.new ≡ visit_of (settings p) turn.lanes turn.rows turn.t turn.i (walk lane.old m.old)) }
{
    let rows = pick_rows(lane, turn, p);
    lane.prev = rows.row0.0;
    visit_row(&mut lane.state, m, rows, p)
}

// So many visits. The answer counts the reduced calls.
pub fn visit_lane(lane: &mut Lane, m: &mut [u64], turn: Turn, count: usize, p: Parameters) -> u64
    requires { Room p.columns turn.lanes turn.rows (length m.old) × (lane.old.prev < turn.lanes * turn.rows) × (count * p.columns < 2 ^ 63) }
    ensures { (result ≡ count * p.columns) × (lane.new.prev < turn.lanes * turn.rows) × (walk lane.new m.new ≡ visits_of (settings p) turn.lanes turn.rows turn.t turn.i count (walk lane.old m.old)) }
{
    let mut calls = 0;
    for _ in 0..count {
        calls += visit(lane, m, turn, p);
    }
    calls
}
