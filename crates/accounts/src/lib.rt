// What stands in a book of accounts. The accounts, the book and the theorems about them are in specs/ and proofs/; there is no function
// here.
#![tactic(auto)]

use settings::StoredParameters;

// What the head of an account says, and the bytes of the whole account.
#[derive(Clone, Copy)]
pub struct Entry {
    pub size: usize,
    pub number: u32,
    pub parameters: StoredParameters,
    pub salt: usize,
    pub key: usize,
}
