// The absorption of the padded input. No block of its own ever holds the password.
#![tactic(auto)]

ghost use Rattle.std.specs.Prelude.{◌≡◌, ◌<◌, length};
ghost use Rattle.lists.specs.Zip.{xor_into};
ghost use Rattle.mixer.specs.Mixers.{sum_of};
ghost use Rattle.settings.specs.Settings.{settings};
ghost use Rattle.input.specs.Input.{Short, padded, blocks, block, absorb_input, input, lengths, numbers, input_blocks};

use mixer::Mixer;
use padded_input::{BLOCK_BYTES, NUMBER_BYTES, input_word};
use profile::Profile;
use settings::Parameters;
use sponge::duplex::full_call;

// How many blocks the padded input has.
#[tactic(auto, unfolding(padded_input::specs::Padded::blocks))]
pub fn block_count(password: usize, salt: usize, numbers: usize) -> usize
    requires { Short password salt numbers }
    ensures { result ≡ blocks password salt numbers }
{
    (password + salt + NUMBER_BYTES * numbers + BLOCK_BYTES) / BLOCK_BYTES
}

#[tactic(auto, unfolding(padded_input::specs::Padded::blocks))]
// Block b of the padded input, XORed into the state word by word.
fn xor_block(s: &mut [u64; 16], password: &[u8], salt: &[u8], numbers: &[u64], b: usize)
    requires { Short (length password.now) (length salt.now) (length numbers.now) × (b < blocks (length password.now) (length salt.now) (length numbers.now)) }
    ensures { s.new ≡ xor_into s.old (block (padded password.now salt.now numbers.now) b) }
{
    for i in 0..Profile::BLOCK_WORDS {
        // The word of the state is read last, so that none waits on the stack.
        let word = input_word(password, salt, numbers, BLOCK_BYTES * b + 8 * i);
        s[i] ^= word;
    }
}

#[tactic(auto, unfolding(crate::specs::Input::absorb_blocks, crate::specs::Input::absorb_input, sponge::specs::Sponge::absorb))]
// Absorbs the padded input for a list of numbers, and returns how many full calls were made.
pub fn absorb_padded(
    s: &mut [u64; 16],
    password: &[u8],
    salt: &[u8],
    numbers: &[u64],
    mixer: Mixer,
) -> u64
    requires { Short (length password.now) (length salt.now) (length numbers.now) }
    ensures { (s.new ≡ absorb_input (sum_of mixer) password.now salt.now numbers.now s.old) × (result ≡ blocks (length password.now) (length salt.now) (length numbers.now)) }
{
    let n = block_count(password.len(), salt.len(), numbers.len());
    let mut calls = 0;
    for b in 0..n {
        xor_block(s, password, salt, numbers, b);
        full_call(s, mixer);
        calls += 1;
    }
    calls
}

#[tactic(auto, unfolding(crate::specs::Input::input_blocks))]
// Absorbs the padded input of a derivation, and returns how many full calls were made.
pub fn absorb_input(
    s: &mut [u64; 16],
    password: &[u8],
    salt: &[u8],
    key_length: usize,
    p: Parameters,
) -> u64
    requires { Short (length password.now) (length salt.now) 6 }
    ensures { (s.new ≡ absorb_input (sum_of p.mixer) password.now salt.now (numbers (input password.now salt.now key_length) (settings p)) s.old) × (result ≡ input_blocks (lengths (input password.now salt.now key_length))) }
{
    let numbers = [
        key_length as u64,
        password.len() as u64,
        salt.len() as u64,
        p.time as u64,
        p.rows as u64,
        p.columns as u64,
    ];
    absorb_padded(s, password, salt, &numbers, p.mixer)
}
