// What is drawn from random bytes that are lent: values below a limit, permutations, and sequences of values.
#![tactic(auto)]

pub mod draw;
pub mod sequence;
