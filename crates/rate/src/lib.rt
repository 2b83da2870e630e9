// The rate of the sponge: the words of the state that take what is absorbed and give the output.
#![tactic(auto)]

ghost use Rattle.std.specs.Prelude.{◌≡◌, ℕ, ◌≤◌, ◌<◌, List, length, get_or};
ghost use Rattle.lists.specs.Zip.{xor_into};
ghost use Rattle.profile.specs.Profile.{state_words};
ghost use Rattle.rate.specs.Rate.{rand};

use profile::Profile;

// XORs n words into the state, each as it is given for its place.
pub fn xor_each<F: Fn(usize) -> u64>(s: &mut [u64; 16], n: usize, word: F)
    requires within { n ≤ state_words }
    requires callable { (j : ℕ) → j < n → F.pre word j }
    ensures { (words : List ℕ) → length words ≡ n → ((j r : ℕ) → j < n → F.post word j r → r ≡ get_or words j 0) → s.new ≡ xor_into s.old words }
{
    for j in 0..n {
        s[j] ^= word(j);
    }
}

pub fn xor_words(s: &mut [u64; 16], words: &[u64])
    requires { length words.now ≤ state_words }
    ensures { s.new ≡ xor_into s.old words.now }
{
    xor_each(s, words.len(), |j| words[j]);
}

#[tactic(auto, unfolding(crate::specs::Rate::rand, lists::specs::Zip::tabulate))]
// The words of the output, which document 01 names rand.
pub fn output(s: &[u64; 16]) -> [u64; Profile::CELL_WORDS]
    ensures { result ≡ rand s.now }
{
    [
        s[0], s[1], s[2], s[3], s[4], s[5], s[6], s[7], s[8], s[9], s[10], s[11],
    ]
}
