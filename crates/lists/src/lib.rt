// Definitions and laws of lists of words, in specs/ and proofs/; there is no code here.
#![tactic(auto)]
