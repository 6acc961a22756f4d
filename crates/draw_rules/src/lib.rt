// What is drawn, told and written, by definition. It stands in specs/ and proofs/; the code stands in the crate `draw`.
#![tactic(auto)]
