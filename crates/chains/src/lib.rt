// Chains of the exported calls' results, for theorems over lists of calls: specs/ and proofs/. It has no code.
#![tactic(auto)]
