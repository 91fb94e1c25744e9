// The longest log a poll can leave, said of the C entry: the statement in specs/, its proof in proofs/. It has no code.
#![tactic(auto)]
