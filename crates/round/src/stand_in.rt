// The stand-in's part of a round: a lent vector U and a lent permutation theta, and no key.
ghost use Rattle.std.specs.Prelude.{◌≡◌, ◌≤◌, ◌<◌, length};
ghost use Rattle.algebra.specs.Lists.{over};
ghost use Rattle.algebra.specs.Residues.{modulus};
ghost use Rattle.algebra.specs.Permutations.{longest, IsPerm};
ghost use Rattle.sha256.specs.Standard.{digest_of};
ghost use Rattle.scheme.specs.Round.{as_system, stand_in_committed, stand_in_answer};
ghost use Rattle.round.specs.Parts.{as_pair};

use crate::Pair;
use crate::hashing::hash_two;
use crate::register::called_for;
use algebra::LONGEST;
use algebra::output::copy_into;
use algebra::permutation::permute_into;
use algebra::residue::add_scaled_into;
use matrices::Matrix;
use sha256::DIGEST;

// The commitment that passes for bit 0, the hash of theta and U for bit 1.
#[tactic(auto, unfolding(scheme::specs::Round::stand_in_committed))]
pub fn stand_in_commitment(a: &Matrix, v: &[u8], c: u8, bit: bool, x: Pair) -> [u8; DIGEST]
    requires { (length v.now ≡ a.now.n) × (c < modulus) × IsPerm (length x.permutation.now) x.permutation.now × (length x.permutation.now ≡ a.now.n) }
    ensures { result ≡ digest_of (stand_in_committed (as_system a.now) v.now c bit (as_pair x.entry)) }
{
    if bit {
        return hash_two(x.permutation, x.vector);
    }
    called_for(a, v, c, false, x.permutation, x.vector)
}

// Writes the first answer: U for bit 0, U + c·V_theta for bit 1.
#[tactic(auto, unfolding(scheme::specs::Round::stand_in_answer))]
pub fn stand_in_answer_into(v: &[u8], c: u8, bit: bool, x: Pair, out: &mut [u8])
    requires { IsPerm (length x.permutation.now) x.permutation.now × (length v.now ≡ length x.permutation.now) × (length x.permutation.now ≤ longest) × (length x.permutation.now ≤ length out.old) }
    ensures { out.new ≡ over (stand_in_answer modulus v.now c bit (as_pair x.entry)) out.old }
{
    if bit {
        let mut room = [0u8; LONGEST];
        permute_into(v, x.permutation, &mut room);
        add_scaled_into(x.vector, c, &room[..x.permutation.len()], out);
    } else {
        copy_into(x.vector, out);
    }
}
