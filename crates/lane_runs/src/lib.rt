// A run of several lanes over the matrix: their inputs, Setup, the visits, then the last cells.
#![tactic(auto)]

ghost use Rattle.std.specs.Prelude.{◌≡◌, ◌+◌, ◌*◌, ◌-◌, ◌/◌, ◌≤◌, length, replicate};
ghost use Rattle.lists.specs.Loop.{loop};
ghost use Rattle.lists.specs.Zip.{tabulate};
ghost use Rattle.mixer.specs.Mixers.{sum_of};
ghost use Rattle.profile.specs.Profile.{start};
ghost use Rattle.settings.specs.Settings.{settings};
ghost use Rattle.input.specs.Input.{Short, input, lengths, absorb_input};
ghost use Rattle.lanes.specs.Lanes.{lane_start};
ghost use Rattle.lanes.specs.LaneLists.{states_of, prevs_of, lanes_of, Ready};
ghost use Rattle.lanes_derivation.specs.LanesCosts.{lane_blocks};
ghost use Rattle.lanes_derivation.specs.LanesDerivation.{lane_numbers, absorb_lane, final_states};
ghost use Rattle.lane_runs.specs.LaneRuns.{Fits, LanesRun};

use clearing::clear_matrix;
use input::absorb_padded;
use lane_setup::set_up_lanes;
use lane_wandering::wander_lanes;
use lanes::Lane;
use last_cell::absorb_last;
use places::Row;
use plain_runs::Calls;
use settings::Parameters;

// Absorbs the padded input of a lane, and returns how many full calls were made.
fn absorb_lane(
    s: &mut [u64; 16],
    password: &[u8],
    salt: &[u8],
    key_length: usize,
    lanes: usize,
    i: usize,
    p: Parameters,
) -> u64
    requires { Short (length password.now) (length salt.now) 8 }
    ensures { (s.new ≡ absorb_input (sum_of p.mixer) password.now salt.now (lane_numbers (input password.now salt.now key_length) (settings p) lanes i) s.old) × (result ≡ lane_blocks (lengths (input password.now salt.now key_length))) }
{
    let numbers = [
        key_length as u64,
        password.len() as u64,
        salt.len() as u64,
        p.time as u64,
        p.rows as u64,
        p.columns as u64,
        lanes as u64,
        i as u64,
    ];
    let mixer = p.mixer;
    absorb_padded(s, password, salt, &numbers, mixer)
}

// Each lane's input, from lane 0 on.
fn absorb_lanes(
    lanes: &mut [Lane],
    password: &[u8],
    salt: &[u8],
    key_length: usize,
    p: Parameters,
) -> u64
    requires { (length lanes.old ≤ 8) × (length password.now ≤ 1024) × (length salt.now ≤ 64) }
    ensures { (result ≡ length lanes.old * lane_blocks (lengths (input password.now salt.now key_length))) × (states_of lanes.new ≡ loop (absorb_lane (settings p) (length lanes.old) (input password.now salt.now key_length)) (length lanes.old) (states_of lanes.old)) }
{
    let all = lanes.len();
    let mut calls = 0;
    for (i, lane) in lanes.iter_mut().enumerate() {
        calls += absorb_lane(&mut lane.state, password, salt, key_length, all, i, p);
    }
    calls
}

// The last row of each lane, which its first visit has for the previous one.
fn last_rows(lanes: &mut [Lane], rows: usize)
    requires { (1 ≤ rows) × (length lanes.old * rows ≤ 16384) }
    ensures { (states_of lanes.new ≡ states_of lanes.old) × (prevs_of lanes.new ≡ tabulate (length lanes.old) (λ i. lane_start rows i + (rows - 1))) }
{
    for (i, lane) in lanes.iter_mut().enumerate() {
        lane.prev = i * rows + (rows - 1);
    }
}

// The last cell of each lane, absorbed with a full call. The answer counts them.
fn close_lanes(lanes: &mut [Lane], m: &[u64], p: Parameters) -> u64
    requires { Ready p.columns (p.rows / length lanes.old) (length m.now) lanes.old }
    ensures { (result ≡ length lanes.old) × (states_of lanes.new ≡ final_states (settings p) (length lanes.old) (lanes_of lanes.old m.now)) }
{
    let mut calls = 0;
    for lane in lanes.iter_mut() {
        absorb_last(&mut lane.state, m, Row(lane.prev), p);
        calls += 1;
    }
    calls
}

// From the starting states to those that the keys are squeezed from, of a call that no check refuses. The last cells are the last that is
// wanted of the matrix.
pub fn run_lanes(
    lanes: &mut [Lane],
    password: &[u8],
    salt: &[u8],
    key_length: usize,
    p: Parameters,
    m: &mut [u64],
) -> Calls
    requires { Fits (lengths (input password.now salt.now key_length)) p (length lanes.old) (length m.old) × (states_of lanes.old ≡ replicate (length lanes.old) start) }
    ensures { LanesRun p (length lanes.old) (input password.now salt.now key_length) m.old (states_of lanes.new) m.new result }
{
    let rows = p.rows / lanes.len();
    let blocks = absorb_lanes(lanes, password, salt, key_length, p);
    let set = set_up_lanes(lanes, m, rows, p);
    last_rows(lanes, rows);
    let visited = wander_lanes(lanes, m, rows, set.order.sqrt, p);
    let last = close_lanes(lanes, m, p);
    clear_matrix(m, p);
    Calls {
        full: blocks + last,
        reduced: set.calls + visited,
    }
}
