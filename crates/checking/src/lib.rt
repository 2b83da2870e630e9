// The check of a stored key.
#![tactic(auto)]

ghost use Rattle.std.specs.Prelude.{length};
ghost use Rattle.input.specs.Input.{input};
ghost use Rattle.derivation.specs.Promises.{Compared};
ghost use Rattle.checking.specs.Answers.{checked_costs, checked_same};

use clearing::clear_run;
use costs::spent;
use derivation::{Spent, lengths_of};
use key::compare;
use plain_runs::run_plain;
use refusals::Refusal;
use room_refusals::check_room;
use settings::Parameters;

// What a check answers that no check of the call refuses.
#[derive(Clone, Copy, PartialEq, Eq, Debug)]
pub struct Checked {
    pub spent: Spent,
    pub same: bool,
}

// Whether a stored key is the key of its length. The used matrix is left as zeros.
pub fn check(
    password: &[u8],
    salt: &[u8],
    p: Parameters,
    stored: &[u8],
    matrix: &mut [u64],
) -> Result<Checked, Refusal>
    ensures { Compared p (input password.now salt.now (length stored.now)) stored.now matrix.old matrix.new (checked_costs result) (checked_same result) }
{
    let l = lengths_of(password, salt, stored.len());
    check_room(l, p, matrix.len())?;
    let mixer = p.mixer;
    let mut s = [0; 16];
    let ran = run_plain(&mut s, password, salt, stored.len(), p, matrix);
    let c = compare(&mut s, stored, mixer);
    let calls = clear_run(&mut s, c.calls, p.rounds, mixer);
    let spent = spent(ran.full + calls, ran.reduced, p);
    Ok(Checked {
        spent,
        same: c.same,
    })
}
