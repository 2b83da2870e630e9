// What a call spends, and the cost question.
#![tactic(auto)]

ghost use Rattle.std.specs.Prelude.{◌≡◌, ◌+◌, ◌*◌, ◌≤◌, ◌<◌, ◌^◌};
ghost use Rattle.settings.specs.Settings.{settings};
ghost use Rattle.refusals.specs.Checks.{first, length_checks, cost_checks, Accepted};
ghost use Rattle.derivation.specs.Cost.{full_cost};
ghost use Rattle.derivation.specs.Answers.{spent_on, cost_answer, costs_of, costs_answer};

use derivation::Spent;
use profile::Profile;
use refusals::{Refusal, check_costs};
use settings::{Lengths, Parameters};

// The numbers in the input.
const NUMBERS: usize = 6;

#[tactic(auto, unfolding(derivation::specs::Answers::spent_on))]
// What so many full and reduced calls spend.
pub fn spent(full: u64, reduced: u64, p: Parameters) -> Spent
    requires { (full < 2 ^ 32) × (reduced < 2 ^ 32) × (p.rounds ≤ 12) }
    ensures { costs_of result ≡ spent_on (settings p) full reduced }
{
    Spent {
        full,
        reduced,
        rounds: (Profile::FULL_ROUNDS as u64) * full + (p.rounds as u64) * reduced,
    }
}

// The full calls that a derivation makes, whatever its T, R and C.
pub fn full_calls(l: Lengths) -> u64
    requires { Accepted (length_checks l) }
    ensures { result ≡ full_cost l }
{
    (input::block_count(l.password, l.salt, NUMBERS) + key::piece_count(l.key)) as u64
}

// The reduced calls of Setup and T rounds of visits over so many cells.
pub fn reduced_calls(cells: usize, time: usize) -> usize
    requires { (time ≤ 255) × (cells * (time + 1) < 2 ^ 32) }
    ensures { result ≡ cells * (time + 1) }
{
    let times = time + 1;
    cells * times
}

// The cost question: what a derivation spends, from the lengths of key, password and salt, T, R and C.
pub fn cost(l: Lengths, p: Parameters) -> Result<Spent, Refusal>
    ensures { costs_answer result ≡ cost_answer (first (cost_checks l p)) l p }
{
    check_costs(l, p)?;
    let full = full_calls(l);
    let reduced = reduced_calls(p.rows * p.columns, p.time);
    Ok(spent(full, reduced as u64, p))
}
