// One round of the scheme, on plain stretches: `a` is the matrix A, v is V, theta a permutation.
#![tactic(auto)]

ghost use Rattle.std.specs.Prelude.{◌≡◌, length};
ghost use Rattle.algebra.specs.Permutations.{IsPerm};

pub mod card;
pub mod hashing;
pub mod register;
pub mod stand_in;

// A vector and a permutation of as many places: the card's choices of a round, R and sigma, or U and theta, which the stand-in is lent.
#[derive(Clone, Copy)]
pub struct Pair<'a> {
    pub vector: &'a [u8],
    pub permutation: &'a [u8],
    pub ghost even: { length vector.now ≡ length permutation.now },
}

// What is opened of a round: the commitment of its bit, the first answer W and the permutation theta.
#[derive(Clone, Copy)]
pub struct Opened<'a> {
    pub commitment: &'a [u8],
    pub answer: &'a [u8],
    pub permutation: &'a [u8],
    pub ghost size: { length commitment.now ≡ 32 },
    pub ghost even: { length answer.now ≡ length permutation.now },
    pub ghost perm: { IsPerm (length permutation.now) permutation.now },
}
