// One round of the scheme by definition, with its laws and the pairing. They stand in specs/ and proofs/; the code stands in the crate `round`.
#![tactic(auto)]
