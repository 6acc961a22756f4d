// Residues modulo 251, vectors and permutations.
// What is written goes over the front of the output, whose rest stays.
#![tactic(auto)]

pub mod output;
pub mod permutation;
pub mod residue;

// The prime p of document 01.
pub const MODULUS: u32 = 251;

// The most that n is.
pub const LONGEST: usize = 64;
