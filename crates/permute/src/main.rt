// Prints a full call of the permutation, a word to a line in hexadecimal: of the state that standard
// input holds as sixteen little-endian words or, where the input is empty, of the starting state.
#![tactic(auto)]

use mixer::Mixer;
use profile::Profile;
use reader_bytes::read_full;
use std::io;
use std::io::{Input, Print};

const STATE_BYTES: usize = 128;

fn print_state(rt: &impl Print, s: &[u64; 16]) -> io::Result<()> {
    for word in s {
        println!(rt; "{word:016x}")?;
    }
    Ok(())
}

fn main(rt: HostRuntime) -> io::Result<()> {
    // One byte more than a state, so that a longer input is seen to be longer.
    let mut bytes = [0u8; 129];
    let n = read_full(&mut rt.reader(), &mut bytes)?;
    let mut s = Profile::start();
    if n == STATE_BYTES {
        little_endian::load_words(&bytes, &mut s);
    } else if n != 0 {
        println!(rt; "permute: the input has to be empty or 128 bytes long")?;
        return Ok(());
    }
    sponge::duplex::full_call(&mut s, Mixer::Plain);
    print_state(&rt, &s)
}
