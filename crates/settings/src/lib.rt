// What a caller gives: T, R, C, ρ, ω and the mixer, and the lengths; and how many words of the matrix are used.
#![tactic(auto)]

ghost use Rattle.std.specs.Prelude.{◌≡◌, ◌<◌, ◌^◌};
ghost use Rattle.settings.specs.Settings.{settings, usual};
ghost use Rattle.settings.specs.Sizes.{matrix_words};

use mixer::Mixer;
use profile::Profile;

// T, R and C; ρ, the rounds of a reduced call; ω, by how many words rot turns a cell; and the mixer.
#[derive(Clone, Copy)]
pub struct Parameters {
    pub time: usize,
    pub rows: usize,
    pub columns: usize,
    pub rounds: usize,
    pub rotation: usize,
    pub mixer: Mixer,
}

// T, R and C alone, as they are kept of an operator. The others are then the usual ones.
#[derive(Clone, Copy)]
pub struct StoredParameters {
    pub time: usize,
    pub rows: usize,
    pub columns: usize,
}

impl Parameters {
    pub fn usual(p: StoredParameters) -> Parameters
        ensures { result ≡ usual p }
    {
        Parameters {
            time: p.time,
            rows: p.rows,
            columns: p.columns,
            rounds: Profile::USUAL_ROUNDS,
            rotation: Profile::USUAL_ROTATION,
            mixer: Mixer::Plain,
        }
    }
}

// In bytes.
#[derive(Clone, Copy)]
pub struct Lengths {
    pub key: usize,
    pub password: usize,
    pub salt: usize,
}

// The words of the used matrix.
pub fn matrix_words(p: Parameters) -> usize
    requires { matrix_words (settings p) < 2 ^ 64 }
    ensures { result ≡ matrix_words (settings p) }
{
    Profile::CELL_WORDS * (p.rows * p.columns)
}
