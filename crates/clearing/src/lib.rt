// Zeros in place of what a derivation worked on, once nothing needs it any more.
#![tactic(auto)]

ghost use Rattle.std.specs.Prelude.{◌≡◌, ◌≤◌, length, replicate};
ghost use Rattle.lists.specs.Zip.{cleared};
ghost use Rattle.profile.specs.Profile.{state_words};
ghost use Rattle.settings.specs.Settings.{settings};
ghost use Rattle.settings.specs.Sizes.{matrix_words};

use calls::rounds;
use mixer::Mixer;
use permutation::plain_round;
use profile::Profile;
use settings::{Parameters, matrix_words};

// The stack that a derivation uses below its first function is shorter than so many blocks.
const STACK_BLOCKS: usize = 8;

// Zeros in the state; the answer is the number that is given. A compiler leaves out stores that nothing reads: so a round reads the
// zeros, which gives zeros again, and a word of the result is added to the number. The round belongs to no call and is not counted.
pub fn clear_state(s: &mut [u64; 16], number: u64) -> u64
    ensures { (result ≡ number) × (s.new ≡ replicate state_words 0) }
{
    *s = [0; 16];
    plain_round(s);
    number + s[0]
}

// Zeros on the stack below its caller, in so many blocks of seventeen words, which with the address to return to fill a multiple of sixteen
// bytes. Each call answers the word of its block that the one below it names, so that the compiler has to keep every block and every call.
// No promise can speak of the stack: what is left there is measured.
pub fn clear_stack(blocks: usize, zero: u64) -> u64
    requires { zero ≡ 0 }
    ensures { result ≡ 0 }
{
    let block = [zero; 17];
    if blocks == 0 {
        return block[0];
    }
    let below = clear_stack(blocks - 1, zero);
    block[(below % 17) as usize]
}

// Whether reduced calls may leave words of the state on the stack. A single round of the plain mixer leaves none.
fn stack_used(n: usize, mixer: Mixer) -> bool {
    match mixer {
        Mixer::Plain => n != Profile::USUAL_ROUNDS,
        Mixer::BlaMka => true,
    }
}

// Zeros in the state, and on the stack where calls of n rounds may have left words of it; the answer is the number that is given. The
// calls' function is used once more, of zeros: one that is called for in two places stays a function, and a reduced call then stays small
// enough to be spread into the columns.
pub fn clear_run(s: &mut [u64; 16], number: u64, n: usize, mixer: Mixer) -> u64
    ensures { (result ≡ number) × (s.new ≡ replicate state_words 0) }
{
    let kept = clear_state(s, number);
    if stack_used(n, mixer) {
        rounds(s, n, mixer);
        return clear_stack(STACK_BLOCKS, s[0]) + kept;
    }
    kept
}

// Zeros in the first n words.
pub fn clear(words: &mut [u64], n: usize, zero: u64)
    requires { (n ≤ length words.old) × (zero ≡ 0) }
    ensures { words.new ≡ cleared n words.old }
{
    for j in 0..n {
        words[j] = zero;
    }
}

// Zeros in the used matrix. Of a zero that it knows the compiler would make a call of memset: a name from elsewhere, and at its first
// call the linker may save the registers, with words of the state in them, on the stack.
pub fn clear_matrix(m: &mut [u64], p: Parameters)
    requires { matrix_words (settings p) ≤ length m.old }
    ensures { m.new ≡ cleared (matrix_words (settings p)) m.old }
{
    let mut zeros = [0; 16];
    let zero = clear_state(&mut zeros, 0);
    clear(m, matrix_words(p), zero);
}
