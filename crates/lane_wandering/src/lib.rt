// The visits of all lanes. Between two meetings the lanes run in turn.
#![tactic(auto)]

ghost use Rattle.std.specs.Prelude.{◌≡◌, ◌*◌, ◌<◌, ◌≤◌, ◌^◌, length};
ghost use Rattle.settings.specs.Settings.{settings};
ghost use Rattle.lanes.specs.Meetings.{sqrt_after};
ghost use Rattle.lanes.specs.LaneVisits.{visits_in_turn, wander_lanes};
ghost use Rattle.lanes.specs.LaneLists.{Ready, lanes_of};

use lane_visits::{Turn, visit_lane};
use lanes::Lane;
use settings::Parameters;

// Interval t, in which each lane has so many visits. The answer counts the reduced calls.
fn visits_in_turn(
    lanes: &mut [Lane],
    m: &mut [u64],
    rows: usize,
    t: usize,
    count: usize,
    p: Parameters,
) -> u64
    requires { Ready p.columns rows (length m.old) lanes.old × (t < 2 ^ 32) × (length lanes.old * (count * p.columns) < 2 ^ 63) }
    ensures { (result ≡ length lanes.old * (count * p.columns)) × Ready p.columns rows (length m.new) lanes.new × (lanes_of lanes.new m.new ≡ visits_in_turn (settings p) (length lanes.old) rows t count (lanes_of lanes.old m.old)) }
{
    let all = lanes.len();
    let mut calls = 0;
    for (i, lane) in lanes.iter_mut().enumerate() {
        let turn = Turn {
            lanes: all,
            rows,
            i,
            t,
        };
        calls += visit_lane(lane, m, turn, count, p);
    }
    calls
}

// All visits. A meeting follows each lane's visits number sqrt, 2 * sqrt and so on, counted from 0. The last interval may have none.
pub fn wander_lanes(
    lanes: &mut [Lane],
    m: &mut [u64],
    rows: usize,
    sqrt: usize,
    p: Parameters,
) -> u64
    requires { Ready p.columns rows (length m.old) lanes.old × (sqrt ≡ sqrt_after rows) × (p.time ≤ 255) }
    ensures { (result ≡ length lanes.old * (rows * p.time * p.columns)) × Ready p.columns rows (length m.new) lanes.new × (lanes_of lanes.new m.new ≡ wander_lanes (settings p) (length lanes.old) rows (lanes_of lanes.old m.old)) }
{
    let visits = rows * p.time;
    let mut calls = 0;
    let mut first = 0;
    for t in 0..visits.div_ceil(sqrt) {
        let end = ((t + 1) * sqrt + 1).min(visits);
        calls += visits_in_turn(lanes, m, rows, t, end - first, p);
        first = end;
    }
    calls
}
