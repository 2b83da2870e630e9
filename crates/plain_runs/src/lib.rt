// A run of the sponge over the matrix for the key alone: no visit is noted down, and nothing is left in the used matrix.
#![tactic(auto)]

ghost use Rattle.std.specs.Prelude.{length};
ghost use Rattle.input.specs.Input.{input, lengths};
ghost use Rattle.refusals.specs.Checks.{Accepted, plain_checks};
ghost use Rattle.plain_runs.specs.PlainRuns.{PlainRun};

use clearing::clear_matrix;
use runs::{finish, run};
use settings::Parameters;

// The calls that were made.
#[derive(Clone, Copy)]
pub struct Calls {
    pub full: u64,
    pub reduced: u64,
}

// From the starting state to the one that the key is squeezed from, of a call that no check refuses. The last cell is the last that
// is wanted of the matrix.
pub fn run_plain(
    s: &mut [u64; 16],
    password: &[u8],
    salt: &[u8],
    key_length: usize,
    p: Parameters,
    m: &mut [u64],
) -> Calls
    requires { Accepted (plain_checks (lengths (input password.now salt.now key_length)) p (length m.old)) }
    ensures { PlainRun p (input password.now salt.now key_length) m.old s.new m.new result }
{
    let mut none: [u64; 0] = [];
    let ran = run(s, password, salt, key_length, p, m, &mut none);
    let full = finish(s, ran, m, p);
    clear_matrix(m, p);
    Calls {
        full,
        reduced: ran.reduced,
    }
}
