// Choosing costs for a gateway: T, R and C within a matrix and a number of rounds.
#![tactic(auto)]

ghost use Rattle.std.specs.Prelude.{◌≡◌, ◌≤◌, ◌<◌, ◌*◌, ◌^◌};
ghost use Rattle.refusals.specs.Checks.{Accepted, length_checks};
ghost use Rattle.choice.specs.Choice.{cells, spends, time_for, choice_answer, chosen_answer};

use cell_limit::{cell_limit, full_spent};
use choice::{ChosenCosts, Limits, Shape};
use choice_refusals::check_choice;
use refusals::{MAX_COLUMNS, MAX_TIME, Refusal};
use settings::Lengths;

// The greatest T up to 255 inside B, for a matrix with which T = 1 is.
fn time_for(l: Lengths, g: Limits, s: Shape) -> usize
    requires { Accepted (length_checks l) × (1 ≤ g.rounds * cells s) × (g.rounds * cells s < 2 ^ 64) × (cells s < 2 ^ 64) × (spends l g 1 s ≤ g.budget) }
    ensures { result ≡ time_for l g s }
{
    let visit = (g.rounds * (s.rows * s.columns)) as u64;
    let visits = (g.budget - full_spent(l)) / visit - 1;
    (visits as usize).min(MAX_TIME)
}

// The question: which T, R and C have the most cells, and how many more any others could have.
pub fn choose(l: Lengths, g: Limits) -> Result<ChosenCosts, Refusal>
    ensures { chosen_answer result ≡ choice_answer l g }
{
    check_choice(l, g)?;
    let limit = cell_limit(l, g);
    let shape = shapes::best(limit, g.tries.min(MAX_COLUMNS));
    let time = time_for(l, g, shape);
    Ok(ChosenCosts {
        time,
        shape,
        shortfall: limit - shape.rows * shape.columns,
    })
}
