// U, the bound on the cells of a matrix that fits.
#![tactic(auto)]

ghost use Rattle.std.specs.Prelude.{◌≡◌};
ghost use Rattle.refusals.specs.Checks.{Accepted, length_checks, given_checks};
ghost use Rattle.choice.specs.Choice.{full_spent, cell_limit};

use choice::Limits;
use costs::full_calls;
use profile::Profile;
use refusals::{MAX_COLUMNS, MAX_ROWS};
use settings::Lengths;

#[tactic(auto, using(derivation::proofs::Answering::full_most))]
// The rounds of the full calls.
pub fn full_spent(l: Lengths) -> u64
    requires { Accepted (length_checks l) }
    ensures { result ≡ full_spent l }
{
    (Profile::FULL_ROUNDS as u64) * full_calls(l)
}

#[tactic(auto, using(choice::proofs::LimitLaws::limit_none))]
// With T = 1 each cell has two reduced calls, one of Setup and one of a visit.
pub fn cell_limit(l: Lengths, g: Limits) -> usize
    requires { Accepted (given_checks l g.rounds) }
    ensures { result ≡ cell_limit l g }
{
    let full = full_spent(l);
    if g.budget < full {
        return 0;
    }
    let visited = (g.budget - full) / (2 * g.rounds) as u64;
    let most = (visited as usize).min(MAX_ROWS * MAX_COLUMNS);
    (g.words / Profile::CELL_WORDS).min(most)
}
