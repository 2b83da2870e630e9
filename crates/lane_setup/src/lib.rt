// Setup of all lanes. Between two meetings the lanes run in turn.
#![tactic(auto)]

ghost use Rattle.std.specs.Prelude.{◌≡◌, ◌+◌, ◌*◌, ◌-◌, ◌<◌, ◌≤◌, ◌^◌, length};
ghost use Rattle.settings.specs.Settings.{settings};
ghost use Rattle.setup_order.specs.SetupOrder.{order};
ghost use Rattle.lists.specs.Loop.{loop};
ghost use Rattle.lanes.specs.LaneSetup.{lane_first_rows, setup_in_turn, setup_lanes};
ghost use Rattle.lanes.specs.LaneLists.{works_of};
ghost use Rattle.lanes.specs.Room.{Room};

use lanes::Lane;
use settings::Parameters;
use setup::{SetUp, first_rows, setup_rows};
use setup_order::Order;

// Rows 0 to 2 of each lane. The answer counts the reduced calls.
fn first_in_turn(lanes: &mut [Lane], m: &mut [u64], rows: usize, p: Parameters) -> u64
    requires { Room p.columns (length lanes.old) rows (length m.old) }
    ensures { (result ≡ length lanes.old * (3 * p.columns)) × (works_of lanes.new m.new ≡ loop (lane_first_rows (settings p) rows) (length lanes.old) (works_of lanes.old m.old)) }
{
    let mut calls = 0;
    for (i, lane) in lanes.iter_mut().enumerate() {
        calls += first_rows(&mut lane.state, m, i * rows, p);
    }
    calls
}

// Interval t: each lane fills n rows from row 3 + k on, whose order is given, and revisits rows of the lane that is t further on.
fn setup_in_turn(
    lanes: &mut [Lane],
    m: &mut [u64],
    rows: usize,
    t: usize,
    k: usize,
    n: usize,
    o: Order,
    p: Parameters,
) -> SetUp
    requires { Room p.columns (length lanes.old) rows (length m.old) × (t < 2 ^ 32) × (o ≡ order k) × (3 + (k + n) ≤ rows) }
    ensures { (result.order ≡ order (k + n)) × (result.calls ≡ length lanes.old * (n * p.columns)) × (works_of lanes.new m.new ≡ setup_in_turn (settings p) (length lanes.old) rows t k n (works_of lanes.old m.old)) }
{
    let all = lanes.len();
    let mut order = o;
    let mut calls = 0;
    for (i, lane) in lanes.iter_mut().enumerate() {
        let other = (i + t) % all;
        let done = setup_rows(&mut lane.state, m, i * rows, other * rows, k, n, o, p);
        order = done.order;
        calls += done.calls;
    }
    SetUp { order, calls }
}

// All of Setup. A meeting follows row 4 of the lanes, and then every sqrt / 2 rows.
pub fn set_up_lanes(lanes: &mut [Lane], m: &mut [u64], rows: usize, p: Parameters) -> SetUp
    requires { Room p.columns (length lanes.old) rows (length m.old) }
    ensures { (result.order ≡ order (rows - 3)) × (result.calls ≡ length lanes.old * rows * p.columns) × (works_of lanes.new m.new ≡ setup_lanes (settings p) (length lanes.old) rows (works_of lanes.old m.old)) }
{
    let mut calls = first_in_turn(lanes, m, rows, p);
    let mut order = Order::first();
    let mut first = 3;
    let mut next: usize = 5;
    let mut t = 0;
    while first < rows {
        let end = next.min(rows);
        let done = setup_in_turn(lanes, m, rows, t, first - 3, end - first, order, p);
        order = done.order;
        calls += done.calls;
        first = end;
        next += order.sqrt / 2;
        t += 1;
    }
    SetUp { order, calls }
}
