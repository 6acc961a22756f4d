// The user's demands as theorems over the crates' definitions. They stand in proofs/; there is no code.
#![tactic(auto)]
