// An answer under a C name: its fields are stored where the caller lends a place for them, zeros where the call was refused, and its
// number is returned. These functions have no proof file, so that a field left alone is refused for what they ensure.
#![tactic(auto)]

ghost use Rattle.std.specs.Prelude.{◌≡◌, [], ◌∷◌};
ghost use Rattle.refusals.specs.Refusals.{answer_number};
ghost use Rattle.derivation.specs.Answers.{costs_answer};
ghost use Rattle.checking.specs.Answers.{checked_costs, checked_same};
ghost use Rattle.recorded.specs.Answers.{recorded_costs, recorded_state};
ghost use Rattle.choice.specs.Choice.{chosen_answer};
ghost use Rattle.line_form.specs.Promises.{values_answer};
ghost use Rattle.c_answers.specs.Stored.{stored as «counts-stored», stored_choice, stored_values, stored_entry, entry_or_nothing, given_or};

use accounts::Entry;
use checking::Checked;
use choice::ChosenCosts;
use derivation::Spent;
use line_form::LineValues;
use packing::Pair;
use recorded::Recording;
use refusals::Refusal;

#[tactic(auto, unfolding(derivation::specs::Answers::no_costs))]
// Stores the counts of a call.
pub fn store_costs(a: Result<Spent, Refusal>, counts: &mut [u64; 3]) -> u32
    ensures { «counts-stored» result counts.new ≡ costs_answer a }
{
    match a {
        Ok(spent) => {
            *counts = [spent.full, spent.reduced, spent.rounds];
            0
        }
        Err(refusal) => {
            *counts = [0; 3];
            refusal.into()
        }
    }
}

// Stores 1 for yes and 0 for no, and the counts.
pub fn store_check(a: Result<Checked, Refusal>, same: &mut u32, counts: &mut [u64; 3]) -> u32
    ensures { («counts-stored» result counts.new ≡ checked_costs a) × (same.new ≡ checked_same a) }
{
    match a {
        Ok(checked) => {
            *same = u32::from(checked.same);
            store_costs(Ok(checked.spent), counts)
        }
        Err(refusal) => {
            *same = 0;
            store_costs(Err(refusal), counts)
        }
    }
}

// Stores the state of a recording, and the counts.
pub fn store_recording(
    a: Result<Recording, Refusal>,
    state: &mut [u64; 16],
    counts: &mut [u64; 3],
) -> u32
    ensures { («counts-stored» result counts.new ≡ recorded_costs a) × (state.new ≡ recorded_state a) }
{
    match a {
        Ok(recording) => {
            let words = recording.state;
            *state = words;
            store_costs(Ok(recording.spent), counts)
        }
        Err(refusal) => {
            *state = [0; 16];
            store_costs(Err(refusal), counts)
        }
    }
}

// Stores a single number: a row, a place or a length.
pub fn store_number(a: Result<usize, Refusal>, number: &mut usize) -> u32
    ensures { (result ≡ answer_number a) × (number.new ≡ given_or 0 a) }
{
    match a {
        Ok(given) => {
            *number = given;
            0
        }
        Err(refusal) => {
            *number = 0;
            refusal.into()
        }
    }
}

#[tactic(auto, unfolding(choice::specs::Choice::no_choice))]
// Stores a choice of costs.
pub fn store_choice(a: Result<ChosenCosts, Refusal>, values: &mut [usize; 4]) -> u32
    ensures { stored_choice result values.new ≡ chosen_answer a }
{
    match a {
        Ok(c) => {
            *values = [c.time, c.shape.rows, c.shape.columns, c.shortfall];
            0
        }
        Err(refusal) => {
            *values = [0; 4];
            refusal.into()
        }
    }
}

#[tactic(auto, unfolding(line_form::specs::Promises::no_values))]
// Stores the values of a login line.
pub fn store_values(a: Result<LineValues, Refusal>, values: &mut [usize; 5]) -> u32
    ensures { stored_values result values.new ≡ values_answer a }
{
    match a {
        Ok(v) => {
            *values = [v.time, v.rows, v.columns, v.salt, v.key];
            0
        }
        Err(refusal) => {
            *values = [0; 5];
            refusal.into()
        }
    }
}

// Stores the two numbers of a word of the record.
pub fn store_pair(a: Pair, numbers: &mut [u64; 2])
    ensures { numbers.new ≡ a.low ∷ a.high ∷ [] }
{
    *numbers = [a.low as u64, a.high as u64];
}

#[tactic(auto, unfolding(accounts::specs::Accounts::nothing))]
// Stores the numbers of an account, and returns its size, 0 where there is none.
pub fn store_entry(found: Option<Entry>, values: &mut [usize; 6]) -> usize
    ensures { stored_entry result values.new ≡ entry_or_nothing found }
{
    match found {
        Some(e) => {
            let p = e.parameters;
            *values = [e.number as usize, p.time, p.rows, p.columns, e.salt, e.key];
            e.size
        }
        None => {
            *values = [0; 6];
            0
        }
    }
}
