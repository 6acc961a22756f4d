// The card's part of a round: both commitments, the first answer, the opening.
ghost use Rattle.std.specs.Prelude.{◌≡◌, ◌≤◌, length};
ghost use Rattle.algebra.specs.Lists.{over};
ghost use Rattle.algebra.specs.Residues.{modulus};
ghost use Rattle.algebra.specs.Permutations.{longest, IsPerm, permute, compose};
ghost use Rattle.sha256.specs.Standard.{digest_of};
ghost use Rattle.scheme.specs.Round.{as_system, committed0, committed1, first_answer, opening};
ghost use Rattle.round.specs.Parts.{as_pair};

use crate::Pair;
use crate::hashing::hash_two;
use algebra::LONGEST;
use algebra::output::copy_into;
use algebra::permutation::{compose_into, permute_into};
use algebra::residue::add_scaled_into;
use matrices::Matrix;
use sha256::DIGEST;

// C0: SHA-256 of sigma and A R.
pub fn commitment_zero(a: &Matrix, x: Pair) -> [u8; DIGEST]
    requires { length x.permutation.now ≡ a.now.n }
    ensures { result ≡ digest_of (committed0 (as_system a.now) (as_pair x.entry)) }
{
    let mut room = [0u8; LONGEST];
    a.product_into(x.vector, &mut room);
    hash_two(x.permutation, &room[..a.m])
}

// C1: SHA-256 of pi sigma and R_sigma.
pub fn commitment_one(pi: &[u8], x: Pair) -> [u8; DIGEST]
    requires { IsPerm (length pi.now) pi.now × IsPerm (length x.permutation.now) x.permutation.now × (length pi.now ≡ length x.permutation.now) × (length x.permutation.now ≤ longest) }
    ensures { result ≡ digest_of (committed1 pi.now (as_pair x.entry)) }
{
    let n = x.permutation.len();
    let mut t = [0u8; LONGEST];
    let mut y = [0u8; LONGEST];
    compose_into(pi, x.permutation, &mut t);
    permute_into(x.vector, x.permutation, &mut y);
    hash_two(&t[..n], &y[..n])
}

// Writes V_pi sigma.
fn lift_into(v: &[u8], pi: &[u8], sigma: &[u8], out: &mut [u8])
    requires { IsPerm (length pi.now) pi.now × IsPerm (length sigma.now) sigma.now × (length pi.now ≡ length sigma.now) × (length v.now ≡ length sigma.now) × (length sigma.now ≤ longest) × (length sigma.now ≤ length out.old) }
    ensures { out.new ≡ over (permute v.now (compose pi.now sigma.now)) out.old }
{
    let mut t = [0u8; LONGEST];
    compose_into(pi, sigma, &mut t);
    permute_into(v, &t[..sigma.len()], out);
}

// Writes W = R_sigma + c·V_pi sigma.
pub fn first_answer_into(v: &[u8], pi: &[u8], c: u8, x: Pair, out: &mut [u8])
    requires { IsPerm (length pi.now) pi.now × IsPerm (length x.permutation.now) x.permutation.now × (length pi.now ≡ length x.permutation.now) × (length v.now ≡ length x.permutation.now) × (length x.permutation.now ≤ longest) × (length x.permutation.now ≤ length out.old) }
    ensures { out.new ≡ over (first_answer modulus v.now pi.now c (as_pair x.entry)) out.old }
{
    let n = x.permutation.len();
    let mut u = [0u8; LONGEST];
    let mut y = [0u8; LONGEST];
    lift_into(v, pi, x.permutation, &mut u);
    permute_into(x.vector, x.permutation, &mut y);
    add_scaled_into(&y[..n], c, &u[..n], out);
}

// Writes what the card opens: sigma for bit 0, pi sigma for bit 1.
#[tactic(auto, unfolding(scheme::specs::Round::opening))]
pub fn open_into(pi: &[u8], bit: bool, sigma: &[u8], out: &mut [u8])
    requires { IsPerm (length pi.now) pi.now × IsPerm (length sigma.now) sigma.now × (length pi.now ≡ length sigma.now) × (length sigma.now ≤ length out.old) }
    ensures { out.new ≡ over (opening pi.now bit sigma.now) out.old }
{
    if bit {
        compose_into(pi, sigma, out);
    } else {
        copy_into(sigma, out);
    }
}
