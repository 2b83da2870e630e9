// A round of the permutation with BlaMka.
#![tactic(auto)]

ghost use Rattle.std.specs.Prelude.{◌≡◌, ◌<◌};
ghost use Rattle.mixer.specs.G.{half_g};
ghost use Rattle.mixer.specs.Mixers.{blamka_sum};
ghost use Rattle.permutation.specs.Round.{Inside, AllInside, apply_at, at_all, round};

use mixer::{Mixer, half_g};
use permutation::apply;
use profile::{Profile, Quad};

// Half of G with BlaMka.
fn apply_half(s: &mut [u64; 16], q: Quad, m: u32, n: u32)
    requires { Inside q × (0 < m) × (m < 64) × (0 < n) × (n < 64) }
    ensures { s.new ≡ apply_at (half_g blamka_sum m n) q s.old }
{
    apply(s, q, |w| half_g(Mixer::BlaMka, w, m, n));
}

// The same on one quad after another. Spread into its four callers, so that the compiler knows the positions.
#[inline(always)]
fn apply_halves(s: &mut [u64; 16], quads: &[Quad], m: u32, n: u32)
    requires inside { AllInside quads.now }
    requires turns { (0 < m) × (m < 64) × (0 < n) × (n < 64) }
    ensures { s.new ≡ at_all (half_g blamka_sum m n) s.old quads.now }
{
    for quad in quads {
        apply_half(s, *quad, m, n);
    }
}

// The four quads of the columns side by side, half by half, and then those of the diagonals. A product takes its time, and the processor
// works on four at once. They share no word, so it is G on one after another all the same.
pub fn blamka_round(s: &mut [u64; 16])
    ensures { s.new ≡ round blamka_sum s.old }
{
    let quads = Profile::quads();
    let mut t = *s;
    apply_halves(&mut t, &quads[..4], 32, 24);
    apply_halves(&mut t, &quads[..4], 16, 63);
    apply_halves(&mut t, &quads[4..], 32, 24);
    apply_halves(&mut t, &quads[4..], 16, 63);
    *s = t;
}
