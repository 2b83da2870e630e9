// What end states tell about the inputs: definitions in specs/ and theorems in proofs/; there is no code here.
#![tactic(auto)]
