// A derivation with several lanes: definitions in specs/ and laws in proofs/; there is no code here.
#![tactic(auto)]
