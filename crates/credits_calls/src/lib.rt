// Credits never overdrawn, said of the exported calls: the statement in specs/, its proof in proofs/. It has no code.
#![tactic(auto)]
