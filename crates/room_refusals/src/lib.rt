// The checks that a derivation has after those of the cost question: ω, and the room in lent memory.
#![tactic(auto)]

ghost use Rattle.std.specs.Prelude.{◌≡◌, ◌+◌, ◌*◌, ◌≤◌, ◌<◌, ◌^◌};
ghost use Rattle.refusals.specs.Checks.{first, plain_checks, recorded_checks};
ghost use Rattle.refusals.specs.Refusals.{answer_number};

use refusals::{MAX_ROTATION, Refusal, at_least, check_costs, within};
use settings::{Lengths, Parameters, matrix_words};

// The checks of the cost question, then ω and the length of the lent matrix.
pub fn check_room(l: Lengths, p: Parameters, matrix: usize) -> Result<(), Refusal>
    ensures { answer_number result ≡ first (plain_checks l p matrix) }
{
    check_costs(l, p)?;
    within(1, MAX_ROTATION, p.rotation, Refusal::Rotation)?;
    at_least(matrix_words(p), matrix, Refusal::MatrixLength)
}

// The words that the record of n visits takes.
fn record_words(n: usize, columns: usize) -> usize
    requires { (columns ≤ 256) × (n * (1 + columns) < 2 ^ 64) }
    ensures { result ≡ n * (1 + columns) }
{
    let visit = 1 + columns;
    n * visit
}

// The same, then the length of the lent record.
pub fn check_recorded_room(
    l: Lengths,
    p: Parameters,
    matrix: usize,
    record: usize,
) -> Result<(), Refusal>
    ensures { answer_number result ≡ first (recorded_checks l p matrix «record») }
{
    check_room(l, p, matrix)?;
    let words = record_words(p.rows * p.time, p.columns);
    at_least(words, record, Refusal::RecordLength)
}
