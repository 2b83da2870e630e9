// BLAKE2b's mixing function G, without message words, with the addition of either mixer.
#![tactic(auto)]

ghost use Rattle.std.specs.Prelude.{◌≡◌, ◌%◌, ◌^◌, ◌<◌};
ghost use Rattle.mixer.specs.Mixers.{doubled_product, sum_of, mixer_of};
ghost use Rattle.mixer.specs.G.{half_g, G};

// Which addition G takes: the sum of two words, or BlaMka's, which adds the doubled product of their low halves.
#[derive(Clone, Copy)]
pub enum Mixer {
    Plain,
    BlaMka,
}

// For callers in C, whose enumerations hold other numbers too: a bool has two values and no third.
impl From<bool> for Mixer {
    ghost from_gives = { λ blamka mixer. mixer ≡ mixer_of blamka };

    fn from(blamka: bool) -> Mixer {
        if blamka { Mixer::BlaMka } else { Mixer::Plain }
    }
}

// The four words that G works on.
#[derive(Clone, Copy)]
pub struct Words {
    pub a: u64,
    pub b: u64,
    pub c: u64,
    pub d: u64,
}

// Twice the product of the low halves, without the carry out of bit 63.
pub fn doubled_product(a: u64, b: u64) -> u64
    ensures { result ≡ doubled_product a b % 2 ^ 64 }
{
    let product = (a % 4_294_967_296) * (b % 4_294_967_296);
    product.wrapping_add(product)
}

// In this order of the sums BlaMka's is fastest.
fn add(mixer: Mixer, a: u64, b: u64) -> u64
    ensures { result ≡ sum_of mixer a b }
{
    match mixer {
        Mixer::Plain => a.wrapping_add(b),
        Mixer::BlaMka => a.wrapping_add(b.wrapping_add(doubled_product(a, b))),
    }
}

pub fn half_g(mixer: Mixer, w: Words, m: u32, n: u32) -> Words
    requires { (0 < m) × (m < 64) × (0 < n) × (n < 64) }
    ensures { result ≡ half_g (sum_of mixer) m n w }
{
    let a = add(mixer, w.a, w.b);
    let d = (w.d ^ a).rotate_right(m);
    let c = add(mixer, w.c, d);
    let b = (w.b ^ c).rotate_right(n);
    Words { a, b, c, d }
}

pub fn g(mixer: Mixer, w: Words) -> Words
    ensures { result ≡ G (sum_of mixer) w }
{
    half_g(mixer, half_g(mixer, w, 32, 24), 16, 63)
}
