// A run of the sponge over the matrix: the input, Setup and the visits, then the last cell.
#![tactic(auto)]

ghost use Rattle.std.specs.Prelude.{◌≡◌, ◌+◌, ◌≤◌, ◌<◌, ◌^◌, length};
ghost use Rattle.settings.specs.Settings.{settings};
ghost use Rattle.settings.specs.Sizes.{matrix_words};
ghost use Rattle.input.specs.Input.{input, lengths};
ghost use Rattle.columns.specs.Columns.{work};
ghost use Rattle.visits.specs.Visits.{walk, wander};
ghost use Rattle.refusals.specs.Checks.{Accepted, plain_checks};
ghost use Rattle.derivation.specs.Derivation.{final_state};
ghost use Rattle.runs.specs.Runs.{Run};

use input::absorb_input;
use last_cell::absorb_last;
use places::Row;
use profile::Profile;
use settings::Parameters;
use setup::set_up;
use wandering::wander;

// What a run to the last visit leaves beside the state: the last visit's rows, and the calls that were made.
#[derive(Clone, Copy)]
pub struct Ran {
    pub row0: Row,
    pub row1: Row,
    pub full: u64,
    pub reduced: u64,
}

// From the starting state to the last visit of a call that no check refuses; the record gets the visits as far as it reaches.
pub fn run(
    s: &mut [u64; 16],
    password: &[u8],
    salt: &[u8],
    key_length: usize,
    p: Parameters,
    m: &mut [u64],
    record: &mut [u64],
) -> Ran
    requires { Accepted (plain_checks (lengths (input password.now salt.now key_length)) p (length m.old)) }
    ensures { Run p (input password.now salt.now key_length) m.old «record».old s.new m.new «record».new result }
{
    *s = Profile::start();
    let full = absorb_input(s, password, salt, key_length, p);
    let set = set_up(s, m, p);
    let v = wander(
        s,
        m,
        Row(p.rows - 1),
        Row(set.order.prev1),
        p.rows * p.time,
        p,
        record,
    );
    Ran {
        row0: v.row0,
        row1: v.row1,
        full,
        reduced: set.calls + v.calls,
    }
}

// The last cell, absorbed with a full call, which leaves the state that the key is squeezed from. The answer is the full calls so far.
pub fn finish(s: &mut [u64; 16], ran: Ran, m: &[u64], p: Parameters) -> u64
    requires { (1 ≤ p.columns) × (ran.row0.0 < p.rows) × (ran.row1.0 < p.rows) × (matrix_words (settings p) ≤ length m.now) × (ran.full < 2 ^ 32) }
    ensures { (result ≡ ran.full + 1) × (s.new ≡ final_state (settings p) (walk (work s.old m.now) ran.row0.0 ran.row1.0)) }
{
    absorb_last(s, m, ran.row0, p);
    ran.full + 1
}
