// The recorded derivation: the plain one, with its visits noted down and the state after the last of them.
#![tactic(auto)]

ghost use Rattle.std.specs.Prelude.{length};
ghost use Rattle.input.specs.Input.{input};
ghost use Rattle.derivation.specs.Promises.{Recorded as «recorded-contract»};
ghost use Rattle.recorded.specs.Answers.{recorded_costs, recorded_state};

use clearing::clear_run;
use costs::spent;
use derivation::{Spent, lengths_of};
use key::squeeze;
use refusals::Refusal;
use room_refusals::check_recorded_room;
use runs::{finish, run};
use settings::Parameters;

// What the recorded derivation answers: what was spent, and the state after the last visit.
#[derive(Clone, Copy)]
pub struct Recording {
    pub spent: Spent,
    pub state: [u64; 16],
}

// The recorded derivation: fills the key, the used matrix and the used record.
pub fn derive_recorded(
    password: &[u8],
    salt: &[u8],
    p: Parameters,
    key: &mut [u8],
    matrix: &mut [u64],
    record: &mut [u64],
) -> Result<Recording, Refusal>
    ensures { «recorded-contract» p (input password.now salt.now (length key.old)) key.old matrix.old «record».old key.new matrix.new «record».new (recorded_costs result) (recorded_state result) }
{
    let l = lengths_of(password, salt, key.len());
    check_recorded_room(l, p, matrix.len(), record.len())?;
    let mixer = p.mixer;
    let mut s = [0; 16];
    let ran = run(&mut s, password, salt, key.len(), p, matrix, record);
    let state = s;
    let full = finish(&mut s, ran, matrix, p);
    let between = squeeze(&mut s, key, mixer);
    let calls = clear_run(&mut s, between, p.rounds, mixer);
    let spent = spent(full + calls, ran.reduced, p);
    Ok(Recording { spent, state })
}
