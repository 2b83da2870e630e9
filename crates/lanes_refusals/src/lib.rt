// When a call with several lanes is turned down.
#![tactic(auto)]

ghost use Rattle.std.specs.Prelude.{◌≡◌, [], ◌∷◌};
ghost use Rattle.refusals.specs.Checks.{lanes_check, first, lanes_cost_checks, lanes_checks};
ghost use Rattle.refusals.specs.Refusals.{answer_number};

use refusals::{
    MAX_COLUMNS, MAX_LANES, MAX_TIME, MIN_LANE_ROWS, Refusal, at_least, check_lengths, check_rows,
    within,
};
use settings::{Lengths, Parameters, StoredParameters, matrix_words};

// The lanes share the rows: as many each, evenly, and enough.
fn check_shares(rows: usize, lanes: usize) -> Result<(), Refusal>
    ensures { answer_number result ≡ first (lanes_check rows lanes ∷ []) }
{
    within(1, MAX_LANES, lanes, Refusal::LaneCount)?;
    within(0, 0, rows / 2 % lanes, Refusal::LaneCount)?;
    within(0, 0, rows % 2, Refusal::LaneCount)?;
    at_least(MIN_LANE_ROWS, rows / lanes, Refusal::LaneCount)
}

// The checks of the lengths, T, R and C, then of the lanes. T = 0 is as wrong here as one that is too great.
pub fn check_lanes(l: Lengths, p: StoredParameters, lanes: usize) -> Result<(), Refusal>
    ensures { answer_number result ≡ first (lanes_cost_checks l p lanes) }
{
    check_lengths(l)?;
    within(1, MAX_TIME, p.time, Refusal::TimeCost)?;
    check_rows(p.rows)?;
    within(1, MAX_COLUMNS, p.columns, Refusal::ColumnCount)?;
    check_shares(p.rows, lanes)
}

// The same, then the length of the lent matrix.
pub fn check_lanes_room(
    l: Lengths,
    p: StoredParameters,
    lanes: usize,
    matrix: usize,
) -> Result<(), Refusal>
    ensures { answer_number result ≡ first (lanes_checks l p lanes matrix) }
{
    check_lanes(l, p, lanes)?;
    let words = matrix_words(Parameters::usual(p));
    at_least(words, matrix, Refusal::MatrixLength)
}
