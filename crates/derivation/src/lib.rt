// What every operation that derives a key or foretells its cost goes by and answers; a derivation itself is defined in specs/.
#![tactic(auto)]

ghost use Rattle.std.specs.Prelude.{◌≡◌};
ghost use Rattle.input.specs.Input.{input, lengths};

use settings::Lengths;

// The full and the reduced calls of a derivation, and the rounds of all of them.
#[derive(Clone, Copy, PartialEq, Eq, Debug)]
pub struct Spent {
    pub full: u64,
    pub reduced: u64,
    pub rounds: u64,
}

// The lengths that the checks ask for, of a key of so many bytes.
pub fn lengths_of(password: &[u8], salt: &[u8], key: usize) -> Lengths
    ensures { result ≡ lengths (input password.now salt.now key) }
{
    Lengths {
        key,
        password: password.len(),
        salt: salt.len(),
    }
}
