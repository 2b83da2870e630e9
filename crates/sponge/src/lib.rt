// The sponge: absorbing, duplexing and the output. The matrix walk stands above it and uses the laws of its definitions.
#![tactic(auto)]

pub mod duplex;
