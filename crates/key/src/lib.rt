// Squeezing the key out of a state, and comparing it with a stored one byte by byte as it comes.
#![tactic(auto)]

ghost use Rattle.std.specs.Prelude.{◌≡◌, ◌^◌, ◌<◌, length};
ghost use Rattle.mixer.specs.Mixers.{sum_of};
ghost use Rattle.key.specs.Key.{key_bytes, pieces, calls_between, squeezed, same_bytes};

use key_bytes::{PIECE_BYTES, next_byte};
use mixer::Mixer;

// How many pieces a key of so many bytes takes.
#[tactic(auto, unfolding(crate::specs::Key::pieces))]
pub fn piece_count(bytes: usize) -> usize
    requires { bytes < 2 ^ 32 }
    ensures { result ≡ pieces bytes }
{
    bytes.div_ceil(PIECE_BYTES)
}

// Fills the whole key, and returns how many full calls were made.
pub fn squeeze(s: &mut [u64; 16], key: &mut [u8], mixer: Mixer) -> u64
    ensures { (key.new ≡ key_bytes (sum_of mixer) (length key.old) s.old) × (s.new ≡ squeezed (sum_of mixer) (length key.old) s.old) × (result ≡ calls_between (length key.old)) }
{
    let mut calls = 0;
    for (i, byte) in key.iter_mut().enumerate() {
        let next = next_byte(s, i, mixer);
        *byte = next.byte;
        calls += next.calls;
    }
    calls
}

// Whether a stored key is the key, with the full calls that were made to tell.
#[derive(Clone, Copy)]
pub struct Comparison {
    pub same: bool,
    pub calls: u64,
}

// Compares a stored key with the key of the same length, which is never stored. Every byte is
// compared, so the time does not tell where the two differ.
pub fn compare(s: &mut [u64; 16], stored: &[u8], mixer: Mixer) -> Comparison
    ensures { (result.same ≡ same_bytes stored.now (key_bytes (sum_of mixer) (length stored.now) s.old)) × (s.new ≡ squeezed (sum_of mixer) (length stored.now) s.old) × (result.calls ≡ calls_between (length stored.now)) }
{
    let mut difference: u8 = 0;
    let mut calls = 0;
    for (i, byte) in stored.iter().enumerate() {
        let next = next_byte(s, i, mixer);
        difference |= *byte ^ next.byte;
        calls += next.calls;
    }
    Comparison {
        same: difference == 0,
        calls,
    }
}
