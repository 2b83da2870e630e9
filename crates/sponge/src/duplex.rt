// Absorbing and duplexing, and what they rest on: calls of the permutation and the output.
#![tactic(auto, unfolding(crate::specs::Sponge::absorb))]

ghost use Rattle.std.specs.Prelude.{◌≡◌, ℕ, ◌<◌, List, length, get_or};
ghost use Rattle.mixer.specs.Mixers.{sum_of};
ghost use Rattle.profile.specs.Profile.{full_rounds, cell_words};
ghost use Rattle.sponge.specs.Sponge.{absorb};

pub use calls::{full_call, reduced_call};
use mixer::Mixer;
use profile::Profile;
pub use rate::output;
use rate::{xor_each, xor_words};

// A cell, with a full call.
pub fn absorb_cell(s: &mut [u64; 16], cell: &[u64], mixer: Mixer)
    requires { length cell.now ≡ cell_words }
    ensures { s.new ≡ absorb (sum_of mixer) full_rounds cell.now s.old }
{
    xor_words(s, cell);
    full_call(s, mixer);
}

// A cell, with a reduced call of n rounds; the output is then words 0 to 11 of the state.
pub fn duplex(s: &mut [u64; 16], cell: &[u64], n: usize, mixer: Mixer)
    requires { length cell.now ≡ cell_words }
    ensures { s.new ≡ absorb (sum_of mixer) n cell.now s.old }
{
    xor_words(s, cell);
    reduced_call(s, n, mixer);
}

// The words that are given place by place, as those of a sum of cells, with a reduced call.
pub fn duplex_each<F: Fn(usize) -> u64>(s: &mut [u64; 16], word: F, n: usize, mixer: Mixer)
    requires { (j : ℕ) → j < cell_words → F.pre word j }
    ensures { (words : List ℕ) → length words ≡ cell_words → ((j r : ℕ) → j < cell_words → F.post word j r → r ≡ get_or words j 0) → s.new ≡ absorb (sum_of mixer) n words s.old }
{
    xor_each(s, Profile::CELL_WORDS, word);
    reduced_call(s, n, mixer);
}
