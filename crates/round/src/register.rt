// The register's part of a round: what its commitment is called to be, and whether it passes.
ghost use Rattle.std.specs.Prelude.{◌≡◌, ◌++◌, ◌≤◌, ◌<◌, length};
ghost use Rattle.algebra.specs.Residues.{modulus, sub_scaled};
ghost use Rattle.algebra.specs.Permutations.{longest, IsPerm, permute};
ghost use Rattle.matrices.specs.Matrices.{product_at};
ghost use Rattle.sha256.specs.Standard.{digest_of};
ghost use Rattle.scheme.specs.Round.{as_system, called_for, passes};
ghost use Rattle.round.specs.Parts.{as_opened};

use crate::Opened;
use crate::hashing::hash_two;
use algebra::LONGEST;
use algebra::permutation::{permute_into, unpermute_into};
use algebra::residue::sub_scaled_into;
use matrices::Matrix;
use sha256::DIGEST;

// SHA-256 of sigma and A_sigma W, which is A U for the U with U[sigma[j]] = W[j].
fn called_zero(a: &Matrix, sigma: &[u8], w: &[u8]) -> [u8; DIGEST]
    requires { IsPerm (length sigma.now) sigma.now × (length sigma.now ≡ a.now.n) × (length w.now ≡ a.now.n) }
    ensures { result ≡ digest_of (sigma.now ++ product_at modulus a.now.entries.now a.now.n a.now.m sigma.now w.now) }
{
    let mut u = [0u8; LONGEST];
    let mut y = [0u8; LONGEST];
    unpermute_into(w, sigma, &mut u);
    a.product_into(&u[..a.n], &mut y);
    hash_two(sigma, &y[..a.m])
}

// SHA-256 of tau and W - c·V_tau.
fn called_one(v: &[u8], c: u8, tau: &[u8], w: &[u8]) -> [u8; DIGEST]
    requires { (c < modulus) × IsPerm (length tau.now) tau.now × (length v.now ≡ length tau.now) × (length w.now ≡ length tau.now) × (length tau.now ≤ longest) }
    ensures { result ≡ digest_of (tau.now ++ sub_scaled modulus w.now c (permute v.now tau.now)) }
{
    let n = tau.len();
    let mut u = [0u8; LONGEST];
    let mut y = [0u8; LONGEST];
    permute_into(v, tau, &mut u);
    sub_scaled_into(w, c, &u[..n], &mut y);
    hash_two(tau, &y[..n])
}

// The commitment that a first answer and an opened permutation call for.
#[tactic(auto, unfolding(scheme::specs::Round::called_for))]
pub fn called_for(a: &Matrix, v: &[u8], c: u8, bit: bool, theta: &[u8], w: &[u8]) -> [u8; DIGEST]
    requires { (length v.now ≡ a.now.n) × (c < modulus) × IsPerm (length theta.now) theta.now × (length theta.now ≡ a.now.n) × (length w.now ≡ a.now.n) }
    ensures { result ≡ digest_of (called_for (as_system a.now) v.now c bit theta.now w.now) }
{
    if bit {
        return called_one(v, c, theta, w);
    }
    called_zero(a, theta, w)
}

// Whether a round passes.
#[tactic(auto, using(crate::proofs::Rooms::same_pointwise), unfolding(scheme::specs::Round::passes))]
pub fn passes(a: &Matrix, v: &[u8], c: u8, bit: bool, o: Opened) -> bool
    requires { (length v.now ≡ a.now.n) × (c < modulus) × (length o.permutation.now ≡ a.now.n) }
    ensures { result ≡ passes (as_system a.now) v.now c bit (as_opened o.entry) }
{
    called_for(a, v, c, bit, o.permutation, o.answer).as_slice() == o.commitment
}
