// Rounds of either mixer, and the full and reduced calls made of them.
#![tactic(auto)]

ghost use Rattle.std.specs.Prelude.{◌≡◌};
ghost use Rattle.mixer.specs.Mixers.{blamka_sum, sum_of};
ghost use Rattle.permutation.specs.Round.{round, rounds};
ghost use Rattle.profile.specs.Profile.{full_rounds};

use blamka::blamka_round;
use mixer::Mixer;
use permutation::{plain_round, plain_rounds};
use profile::Profile;

fn round(s: &mut [u64; 16], mixer: Mixer)
    ensures { s.new ≡ round (sum_of mixer) s.old }
{
    match mixer {
        Mixer::Plain => plain_round(s),
        Mixer::BlaMka => blamka_round(s),
    }
}

// Round by round: words and products of several do not fit into the registers. `blamka_round` is called for in two places so, and stays a
// function; `round` then is small enough to be spread into the columns, and the plain mixer pays for a comparison alone.
#[tactic(auto, unfolding(permutation::specs::Round::rounds))]
fn blamka_rounds(s: &mut [u64; 16], n: usize)
    ensures { s.new ≡ rounds blamka_sum n s.old }
{
    for _ in 0..n {
        blamka_round(s);
    }
}

pub fn rounds(s: &mut [u64; 16], n: usize, mixer: Mixer)
    ensures { s.new ≡ rounds (sum_of mixer) n s.old }
{
    match mixer {
        Mixer::Plain => plain_rounds(s, n),
        Mixer::BlaMka => blamka_rounds(s, n),
    }
}

// Round by round in calls: `plain_round` keeps no word of the state on the stack, and `plain_rounds` does.
#[tactic(auto, unfolding(permutation::specs::Round::rounds))]
pub fn full_call(state: &mut [u64; 16], mixer: Mixer)
    ensures { state.new ≡ rounds (sum_of mixer) full_rounds state.old }
{
    for _ in 0..Profile::FULL_ROUNDS {
        round(state, mixer);
    }
}

// A call of n rounds. The usual one, a single round of the plain mixer, pays for two comparisons and no more.
#[tactic(auto, unfolding(permutation::specs::Round::rounds))]
pub fn reduced_call(s: &mut [u64; 16], n: usize, mixer: Mixer)
    ensures { s.new ≡ rounds (sum_of mixer) n s.old }
{
    if n == Profile::USUAL_ROUNDS {
        round(s, mixer);
    } else {
        rounds(s, n, mixer);
    }
}
