// The operations with several lanes: the derivation, the check of a stored key, and the cost question.
#![tactic(auto)]

ghost use Rattle.std.specs.Prelude.{◌≡◌, ℕ, ◌<◌, [], length, get_or, replicate};
ghost use Rattle.profile.specs.Profile.{state_words};
ghost use Rattle.settings.specs.Settings.{usual};
ghost use Rattle.input.specs.Input.{input, lengths};
ghost use Rattle.refusals.specs.Checks.{first, lanes_cost_checks};
ghost use Rattle.derivation.specs.Answers.{costs_answer};
ghost use Rattle.checking.specs.Answers.{checked_costs, checked_same};
ghost use Rattle.lanes_derivation.specs.LanesCosts.{lanes_answer};
ghost use Rattle.lanes_derivation.specs.LanesContracts.{lanes_number, LanesDerived, LanesCompared};
ghost use Rattle.lanes.specs.LaneLists.{states_of};
ghost use Rattle.lanes_deriving.specs.Over.{Begins, Takes};

use checking::Checked;
use clearing::{clear_stack, clear_state};
use costs::{reduced_calls, spent};
use derivation::{Spent, lengths_of};
use lane_keys::take_key;
use lane_runs::run_lanes;
use lanes::Lane;
use lanes_refusals::check_lanes_room;
use profile::Profile;
use refusals::{MAX_LANES, Refusal};
use settings::{Lengths, Parameters, StoredParameters};

// The numbers in a lane's input.
const NUMBERS: usize = 8;

// The stack that `take_accepted` and what it calls use is shorter than so many blocks.
const STACK_BLOCKS: usize = 16;

// Zeros in every lane's state; the answer is the number that is given.
fn clear_states(lanes: &mut [Lane], number: u64) -> u64
    ensures { (result ≡ number) × ((i : ℕ) → i < length lanes.old → get_or (states_of lanes.new) i [] ≡ replicate state_words 0) }
{
    let mut kept = number;
    for lane in lanes.iter_mut() {
        kept = clear_state(&mut lane.state, kept);
    }
    kept
}

// The run and the key, over the lanes.
fn take_over(
    lanes: &mut [Lane],
    password: &[u8],
    salt: &[u8],
    p: Parameters,
    bytes: usize,
    key: &mut [u8],
    stored: &[u8],
    matrix: &mut [u64],
) -> Checked
    requires { Begins (lengths (input password.now salt.now bytes)) p (length lanes.old) (length matrix.old) (states_of lanes.old) }
    ensures { Takes p (length lanes.old) (input password.now salt.now bytes) key.old stored.now matrix.old key.new matrix.new result }
{
    let ran = run_lanes(lanes, password, salt, bytes, p, matrix);
    let taken = take_key(lanes, bytes, key, stored, p.mixer);
    Checked {
        spent: spent(ran.full + taken.calls, ran.reduced, p),
        same: taken.same,
    }
}

// A call that no check refuses: the derivation of a key of so many bytes, which the lent key takes and which a stored one is compared with.
// Derivation and check both call for it, so that it stays a function, whose part of the stack they clear when it has ended: what the compiler
// keeps of the states lies there. The count of the full calls goes through the clearing of the states, which is so not left out.
fn take_accepted(
    password: &[u8],
    salt: &[u8],
    q: StoredParameters,
    lanes: usize,
    bytes: usize,
    key: &mut [u8],
    stored: &[u8],
    matrix: &mut [u64],
) -> Checked
    requires { lanes_number q lanes (input password.now salt.now bytes) matrix.old ≡ 0 }
    ensures { Takes (usual q) lanes (input password.now salt.now bytes) key.old stored.now matrix.old key.new matrix.new result }
{
    let p = Parameters::usual(q);
    let mut all = [Lane {
        state: Profile::start(),
        prev: 0,
    }; MAX_LANES];
    let done = take_over(
        &mut all[..lanes],
        password,
        salt,
        p,
        bytes,
        key,
        stored,
        matrix,
    );
    let spent = Spent {
        full: clear_states(&mut all, done.spent.full),
        ..done.spent
    };
    Checked { spent, ..done }
}

// The counts as they are, once the stack below is cleared, by a zero that the compiler does not know.
fn clear_below(spent: Spent, zero: u64) -> Spent
    requires { zero ≡ 0 }
    ensures { result ≡ spent }
{
    Spent {
        full: spent.full + clear_stack(STACK_BLOCKS, zero),
        ..spent
    }
}

// The derivation with several lanes: fills the key, works in the used matrix and leaves zeros there.
pub fn derive_lanes(
    password: &[u8],
    salt: &[u8],
    q: StoredParameters,
    lanes: usize,
    key: &mut [u8],
    matrix: &mut [u64],
) -> Result<Spent, Refusal>
    ensures { LanesDerived q lanes (input password.now salt.now (length key.old)) key.old matrix.old key.new matrix.new (costs_answer result) }
{
    let l = lengths_of(password, salt, key.len());
    check_lanes_room(l, q, lanes, matrix.len())?;
    let none: [u8; 0] = [];
    let done = take_accepted(password, salt, q, lanes, key.len(), key, &none, matrix);
    Ok(clear_below(done.spent, matrix[0]))
}

// Whether a stored key is the key of its length. The used matrix is left as zeros.
pub fn check_lanes(
    password: &[u8],
    salt: &[u8],
    q: StoredParameters,
    lanes: usize,
    stored: &[u8],
    matrix: &mut [u64],
) -> Result<Checked, Refusal>
    ensures { LanesCompared q lanes (input password.now salt.now (length stored.now)) stored.now matrix.old matrix.new (checked_costs result) (checked_same result) }
{
    let l = lengths_of(password, salt, stored.len());
    check_lanes_room(l, q, lanes, matrix.len())?;
    let mut none: [u8; 0] = [];
    let done = take_accepted(
        password,
        salt,
        q,
        lanes,
        stored.len(),
        &mut none,
        stored,
        matrix,
    );
    let spent = clear_below(done.spent, matrix[0]);
    Ok(Checked { spent, ..done })
}

// The cost question for several lanes.
pub fn cost_lanes(l: Lengths, q: StoredParameters, lanes: usize) -> Result<Spent, Refusal>
    ensures { costs_answer result ≡ lanes_answer (first (lanes_cost_checks l q lanes)) l q lanes }
{
    lanes_refusals::check_lanes(l, q, lanes)?;
    let each = input::block_count(l.password, l.salt, NUMBERS) + key::piece_count(l.key);
    let reduced = reduced_calls(q.rows * q.columns, q.time);
    Ok(spent((lanes * each) as u64, reduced as u64, Parameters::usual(q)))
}
