// When a choice of costs is turned down.
#![tactic(auto)]

ghost use Rattle.std.specs.Prelude.{◌≡◌};
ghost use Rattle.refusals.specs.Refusals.{answer_number};
ghost use Rattle.choice.specs.Choice.{choice_number};

use cell_limit::cell_limit;
use choice::Limits;
use refusals::{MAX_ROUNDS, MIN_ROWS, Refusal, at_least, check_lengths, within};
use settings::Lengths;

// The checks of the lengths and of ρ, then of N and of the cells that fit.
pub fn check_choice(l: Lengths, g: Limits) -> Result<(), Refusal>
    ensures { answer_number result ≡ choice_number l g }
{
    check_lengths(l)?;
    within(1, MAX_ROUNDS, g.rounds, Refusal::RoundCount)?;
    at_least(1, g.tries, Refusal::TryCount)?;
    at_least(MIN_ROWS, cell_limit(l, g), Refusal::NothingFits)
}
