// Statements about the whole base, in specs/ and proofs/; there is no code here.
#![tactic(auto)]
