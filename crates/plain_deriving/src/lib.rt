// The plain derivation.
#![tactic(auto)]

ghost use Rattle.std.specs.Prelude.{length};
ghost use Rattle.input.specs.Input.{input};
ghost use Rattle.derivation.specs.Answers.{costs_answer};
ghost use Rattle.derivation.specs.Promises.{Derived};

use clearing::clear_run;
use costs::spent;
use derivation::{Spent, lengths_of};
use key::squeeze;
use plain_runs::run_plain;
use refusals::Refusal;
use room_refusals::check_room;
use settings::Parameters;

// The plain derivation: fills the key, works in the used matrix and leaves zeros there.
pub fn derive(
    password: &[u8],
    salt: &[u8],
    p: Parameters,
    key: &mut [u8],
    matrix: &mut [u64],
) -> Result<Spent, Refusal>
    ensures { Derived p (input password.now salt.now (length key.old)) key.old matrix.old key.new matrix.new (costs_answer result) }
{
    let l = lengths_of(password, salt, key.len());
    check_room(l, p, matrix.len())?;
    let mixer = p.mixer;
    let mut s = [0; 16];
    let ran = run_plain(&mut s, password, salt, key.len(), p, matrix);
    let between = squeeze(&mut s, key, mixer);
    let calls = clear_run(&mut s, between, p.rounds, mixer);
    Ok(spent(ran.full + calls, ran.reduced, p))
}
