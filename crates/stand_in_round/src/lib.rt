// The bytes of the round that the stand-in makes: commitment, W and permutation.
#![tactic(auto)]

ghost use Rattle.std.specs.Prelude.{◌≡◌, ◌+◌, ◌≤◌, ◌<◌, length};
ghost use Rattle.algebra.specs.Lists.{over, over_at};
ghost use Rattle.algebra.specs.Residues.{modulus};
ghost use Rattle.algebra.specs.Permutations.{longest, IsPerm};
ghost use Rattle.scheme.specs.Round.{as_system, stand_in_answer, stand_in};
ghost use Rattle.round.specs.Parts.{as_pair};
ghost use Rattle.stand_in_round.specs.Bytes.{round_size, round_bytes};

use algebra::output::{copy_at, copy_into};
use matrices::Matrix;
use round::Pair;
use round::stand_in::{stand_in_answer_into, stand_in_commitment};
use sha256::DIGEST;

// Writes W from the place `at` on.
fn put_answer(v: &[u8], c: u8, bit: bool, x: Pair, at: usize, out: &mut [u8])
    requires { IsPerm (length x.permutation.now) x.permutation.now × (length v.now ≡ length x.permutation.now) × (length x.permutation.now ≤ longest) × (at + length x.permutation.now ≤ length out.old) }
    ensures { out.new ≡ over_at (stand_in_answer modulus v.now c bit (as_pair x.entry)) at out.old }
{
    stand_in_answer_into(v, c, bit, x, &mut out[at..]);
}

// Writes a round, for which there is room, of the lent vector and the lent permutation.
pub fn put_round(a: &Matrix, v: &[u8], c: u8, bit: bool, x: Pair, out: &mut [u8])
    requires { (length v.now ≡ a.now.n) × (c < modulus) × IsPerm (length x.permutation.now) x.permutation.now × (length x.permutation.now ≡ a.now.n) × (round_size a.now.n ≤ length out.old) }
    ensures { out.new ≡ over (round_bytes (stand_in (as_system a.now) v.now c bit (as_pair x.entry))) out.old }
{
    let commitment = stand_in_commitment(a, v, c, bit, x);
    copy_into(&commitment, out);
    put_answer(v, c, bit, x, DIGEST, out);
    copy_at(x.permutation, DIGEST + a.n, out);
}
