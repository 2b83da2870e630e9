// The key of several lanes, byte by byte: a byte of each lane's key, XORed.
#![tactic(auto)]

ghost use Rattle.std.specs.Prelude.{◌≡◌, ◌<◌, ◌^◌, length, get_or, set};
ghost use Rattle.std.specs.Int.Bits.{bit_or, bit_xor};
ghost use Rattle.mixer.specs.Mixers.{sum_of};
ghost use Rattle.lanes.specs.LaneLists.{states_of};
ghost use Rattle.lane_keys.specs.Arrived.{Arrived, Taken};

use key::Comparison;
use key_bytes::{Next, next_byte};
use lanes::Lane;
use mixer::Mixer;

// Byte i of the key, out of the states that the bytes before it left.
fn next_of_all(lanes: &mut [Lane], i: usize, mixer: Mixer) -> Next
    requires { length lanes.old < 2 ^ 32 }
    ensures { Arrived (sum_of mixer) (length lanes.old) i (states_of lanes.old) (states_of lanes.new) result }
{
    let mut byte = 0;
    let mut calls = 0;
    for lane in lanes.iter_mut() {
        let next = next_byte(&mut lane.state, i, mixer);
        byte ^= next.byte;
        calls += next.calls;
    }
    Next { byte, calls }
}

// Puts byte i of the key in its place, where the lent key reaches that far.
fn put_byte(key: &mut [u8], i: usize, byte: u8)
    ensures { key.new ≡ set key.old i byte }
{
    if i < key.len() {
        key[i] = byte;
    }
}

// The bits in which the stored bytes and the key differ, with those of byte i added, where the stored key reaches that far.
fn differing_more(difference: u8, stored: &[u8], i: usize, byte: u8) -> u8
    ensures { i < length stored.now → result ≡ bit_or difference (bit_xor (get_or stored.now i 0) byte) }
{
    if i < stored.len() {
        difference | (stored[i] ^ byte)
    } else {
        difference
    }
}

// Takes a key of so many bytes: each is put into the lent key and compared with the stored one. A derivation gives no stored key, and a
// check lends none, so that the key that it compares with is never stored. Every byte is compared: the time does not tell where the two differ.
pub fn take_key(
    lanes: &mut [Lane],
    bytes: usize,
    key: &mut [u8],
    stored: &[u8],
    mixer: Mixer,
) -> Comparison
    requires { (length lanes.old < 2 ^ 16) × (bytes < 2 ^ 32) }
    ensures { Taken (sum_of mixer) (length lanes.old) bytes (states_of lanes.old) key.old stored.now key.new result }
{
    let mut difference: u8 = 0;
    let mut calls = 0;
    for i in 0..bytes {
        let next = next_of_all(lanes, i, mixer);
        put_byte(key, i, next.byte);
        difference = differing_more(difference, stored, i, next.byte);
        calls += next.calls;
    }
    Comparison {
        same: difference == 0,
        calls,
    }
}
