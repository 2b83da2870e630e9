// The permutation: rounds of G over the state, without message words, with plain sums.
#![tactic(auto)]

ghost use Rattle.std.specs.Prelude.{◌≡◌};
ghost use Rattle.mixer.specs.G.{G};
ghost use Rattle.mixer.specs.Word.{plain_sum};
ghost use Rattle.mixer.specs.declared.Words.{Words};
ghost use Rattle.permutation.specs.Round.{Inside, words_at, put_words, apply_at, round, rounds};

use mixer::{Mixer, Words, g};
use profile::{Profile, Quad};

fn words_at(s: &[u64; 16], q: Quad) -> Words
    requires { Inside q }
    ensures { result ≡ words_at q s.now }
{
    let Quad(i, j, k, l) = q;
    Words {
        a: s[i],
        b: s[j],
        c: s[k],
        d: s[l],
    }
}

fn put_words(s: &mut [u64; 16], q: Quad, w: Words)
    requires { Inside q }
    ensures { s.new ≡ put_words q w s.old }
{
    let Quad(i, j, k, l) = q;
    s[i] = w.a;
    s[j] = w.b;
    s[k] = w.c;
    s[l] = w.d;
}

// A function of four words on those at four positions: they are read first and stored last.
pub fn apply<F: Fn(Words) -> Words>(s: &mut [u64; 16], q: Quad, f: F)
    requires { Inside q × F.IsAlwaysCallable f }
    ensures { (w : Words) × F.post f (words_at q s.old) w × (s.new ≡ put_words q w s.old) }
{
    let w = f(words_at(s, q));
    put_words(s, q, w);
}

fn apply_g(s: &mut [u64; 16], q: Quad)
    requires { Inside q }
    ensures { s.new ≡ apply_at (G plain_sum) q s.old }
{
    apply(s, q, |w| g(Mixer::Plain, w));
}

pub fn plain_round(s: &mut [u64; 16])
    ensures { s.new ≡ round plain_sum s.old }
{
    for quad in &Profile::quads() {
        apply_g(s, *quad);
    }
}

// The table's loop once more, and not `plain_round` in a loop, on a copy of the state: so the compiler keeps the words in registers from
// round to round.
pub fn plain_rounds(s: &mut [u64; 16], n: usize)
    ensures { s.new ≡ rounds plain_sum n s.old }
{
    let quads = Profile::quads();
    let mut t = *s;
    for _ in 0..n {
        for quad in &quads {
            apply_g(&mut t, *quad);
        }
    }
    *s = t;
}
