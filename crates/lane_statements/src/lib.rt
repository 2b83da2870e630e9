// What holds of every call with several lanes: definitions in specs/ and theorems in proofs/; there is no code here.
#![tactic(auto)]
