// The bytes of the key, one after another out of a state.
#![tactic(auto)]

ghost use Rattle.std.specs.Prelude.{◌≡◌, ◌%◌, ◌<◌, get_or};
ghost use Rattle.mixer.specs.Mixers.{sum_of};
ghost use Rattle.key_bytes.specs.KeyBytes.{piece_bytes, full_calls, piece, calls_before};

use little_endian::byte_of;
use mixer::Mixer;
use profile::Profile;
use sponge::duplex::full_call;

const WORD_BYTES: usize = 8;

pub const PIECE_BYTES: usize = WORD_BYTES * Profile::CELL_WORDS;

// The full call between two pieces: it is made before the first byte of each piece but the first.
#[tactic(auto, using(crate::proofs::KeyLaws::no_call, crate::proofs::KeyLaws::one_call), unfolding(crate::specs::KeyBytes::pieces))]
fn call_between(s: &mut [u64; 16], i: usize, mixer: Mixer) -> u64
    ensures { (s.new ≡ full_calls (sum_of mixer) (calls_before i) s.old) × (result ≡ calls_before i) }
{
    if i == 0 || i % PIECE_BYTES != 0 {
        return 0;
    }
    full_call(s, mixer);
    1
}

// A byte of the output.
#[tactic(auto, using(crate::proofs::KeyLaws::piece_at))]
fn output_byte(s: &[u64; 16], i: usize) -> u8
    requires { i < piece_bytes }
    ensures { result ≡ get_or (piece s.now) i 0 }
{
    byte_of(s[i / WORD_BYTES], i % WORD_BYTES)
}

// A byte of the key, with the full calls that were made for it.
#[derive(Clone, Copy)]
pub struct Next {
    pub byte: u8,
    pub calls: u64,
}

// Byte i of the key, out of the state that the bytes before it left.
pub fn next_byte(s: &mut [u64; 16], i: usize, mixer: Mixer) -> Next
    ensures { (s.new ≡ full_calls (sum_of mixer) (calls_before i) s.old) × (result.byte ≡ get_or (piece s.new) (i % piece_bytes) 0) × (result.calls ≡ calls_before i) }
{
    let calls = call_between(s, i, mixer);
    let byte = output_byte(s, i % PIECE_BYTES);
    Next { byte, calls }
}
