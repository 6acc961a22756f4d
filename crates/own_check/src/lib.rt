// The card's own check: commitments and first answers formed anew, round by round, and looked at as the register would.
#![tactic(auto)]

ghost use Rattle.std.specs.Prelude.{◌≡◌, ℕ, ◌*◌, ◌≤◌, ◌<◌, length, get_or, unwrap_or, IfSome};
ghost use Rattle.algebra.specs.Residues.{modulus};
ghost use Rattle.algebra.specs.Permutations.{IsPerm};
ghost use Rattle.kinds.specs.Kinds.{most_rounds};
ghost use Rattle.sha256.specs.Standard.{digest_of};
ghost use Rattle.scheme.specs.Round.{as_system};
ghost use Rattle.round.specs.Parts.{as_pair};
ghost use Rattle.rounds.specs.Layout.{CardFits};
ghost use Rattle.own_check.specs.Own.{committed, own_passes, own_failing};

use algebra::LONGEST;
use kinds::MOST_ROUNDS;
use matrices::Matrix;
use packed_bits::bit_at;
use round::card::{commitment_one, commitment_zero, first_answer_into, open_into};
use round::register::passes;
use round::{Opened, Pair};
use rounds::layout::pair_at;
use sha256::DIGEST;

// The commitment of a bit.
#[tactic(auto, unfolding(crate::specs::Own::committed))]
fn commitment_of(bit: bool, a: &Matrix, pi: &[u8], x: Pair) -> [u8; DIGEST]
    requires { IsPerm a.now.n pi.now × IsPerm a.now.n x.permutation.now }
    ensures { result ≡ digest_of (committed (as_system a.now) pi.now bit (as_pair x.entry)) }
{
    if bit {
        return commitment_one(pi, x);
    }
    commitment_zero(a, x)
}

// Whether the register passes a round of this card.
fn own_round_passes(a: &Matrix, v: &[u8], pi: &[u8], c: u8, bit: bool, x: Pair) -> bool
    requires { (length v.now ≡ a.now.n) × (c < modulus) × IsPerm a.now.n pi.now × IsPerm a.now.n x.permutation.now }
    ensures { result ≡ own_passes (as_system a.now) v.now pi.now c bit (as_pair x.entry) }
{
    let mut w = [0u8; LONGEST];
    let mut theta = [0u8; LONGEST];
    let commitment = commitment_of(bit, a, pi, x);
    first_answer_into(v, pi, c, x, &mut w);
    open_into(pi, bit, x.permutation, &mut theta);
    let opened = Opened {
        commitment: &commitment,
        answer: &w[..a.n],
        permutation: &theta[..a.n],
    };
    passes(a, v, c, bit, opened)
}

// The first round of this card that the register does not pass.
pub fn own_failing(
    a: &Matrix,
    v: &[u8],
    pi: &[u8],
    rounds: usize,
    choices: &[u8],
    challenges: [u8; MOST_ROUNDS],
    bits: &[u8],
) -> Option<usize>
    requires { CardFits a.now.n rounds v.now pi.now choices.now × (rounds ≤ most_rounds) × ((j : ℕ) → j < rounds → get_or challenges j 0 < modulus) × (rounds ≤ 8 * length bits.now) }
    ensures first { unwrap_or result rounds ≡ own_failing (as_system a.now) v.now pi.now rounds choices.now challenges bits.now }
    ensures below { IfSome result (λ k. k < rounds) }
{
    (0..rounds).find(|k| {
        let x = pair_at(choices, a.n, *k);
        !own_round_passes(a, v, pi, challenges[*k], bit_at(bits, *k), x)
    })
}
