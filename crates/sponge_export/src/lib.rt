// The sponge for tests and benchmarks in other languages: each function hands on to the proved one.
#![tactic(auto)]

ghost use Rattle.std.specs.Prelude.{◌≡◌};
ghost use Rattle.mixer.specs.Mixers.{sum_of, mixer_of};
ghost use Rattle.mixer.specs.G.{G};
ghost use Rattle.permutation.specs.Round.{rounds};
ghost use Rattle.sponge_export.specs.Four.{four, words};

use mixer::{Mixer, Words};

// G on a, b, c and d in place.
#[unsafe(no_mangle)]
pub extern "C" fn lyra2_sponge_g(w: &mut [u64; 4], mixer: bool)
    ensures { w.new ≡ four (G (sum_of (mixer_of mixer)) (words w.old)) }
{
    let [a, b, c, d] = *w;
    let mixed = mixer::g(Mixer::from(mixer), Words { a, b, c, d });
    *w = [mixed.a, mixed.b, mixed.c, mixed.d];
}

#[unsafe(no_mangle)]
pub extern "C" fn lyra2_sponge_rounds(s: &mut [u64; 16], n: usize, mixer: bool)
    ensures { s.new ≡ rounds (sum_of (mixer_of mixer)) n s.old }
{
    calls::rounds(s, n, Mixer::from(mixer));
}
