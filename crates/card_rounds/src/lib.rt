// The card's loops: all commitments, all first answers, all openings, each over the front of a body.
#![tactic(auto)]

ghost use Rattle.std.specs.Prelude.{◌≡◌, ◌+◌, ◌*◌, ◌≤◌, ◌<◌, length};
ghost use Rattle.algebra.specs.Lists.{joined, over, over_at};
ghost use Rattle.algebra.specs.Residues.{modulus};
ghost use Rattle.kinds.specs.Kinds.{pair_size};
ghost use Rattle.scheme.specs.Round.{as_system};
ghost use Rattle.rounds.specs.Layout.{RoundFits, CardFits};
ghost use Rattle.rounds.specs.Rounds.{commitments_at, answer_at, opening_at};

use algebra::output::copy_at;
use kinds::PAIR;
use matrices::Matrix;
use packed_bits::bit_at;
use round::card::{commitment_one, commitment_zero, first_answer_into, open_into};
use rounds::layout::{pair_at, permutation_of};
use sha256::DIGEST;

// Writes C0 and C1 of round k at their place.
fn commit_at(a: &Matrix, pi: &[u8], choices: &[u8], k: usize, out: &mut [u8])
    requires { RoundFits a.now.n pi.now pi.now choices.now k × (k * pair_size + pair_size ≤ length out.old) }
    ensures { out.new ≡ over_at (commitments_at (as_system a.now) pi.now choices.now k) (k * pair_size) out.old }
{
    let x = pair_at(choices, a.n, k);
    let zero = commitment_zero(a, x);
    let one = commitment_one(pi, x);
    let at = k * PAIR;
    copy_at(&zero, at, out);
    let next = at + DIGEST;
    copy_at(&one, next, out);
}

// Writes all commitments.
pub fn commit_all(a: &Matrix, pi: &[u8], rounds: usize, choices: &[u8], out: &mut [u8])
    requires { CardFits a.now.n rounds pi.now pi.now choices.now × (rounds * pair_size ≤ length out.old) }
    ensures { out.new ≡ over (joined rounds (commitments_at (as_system a.now) pi.now choices.now)) out.old }
{
    for k in 0..rounds {
        commit_at(a, pi, choices, k, out);
    }
}

// Writes W of round k at its place.
fn answer_at(
    v: &[u8],
    pi: &[u8],
    n: usize,
    challenges: &[u8],
    choices: &[u8],
    k: usize,
    out: &mut [u8],
)
    requires { RoundFits n v.now pi.now choices.now k × (k < length challenges.now) × (k * n + n ≤ length out.old) }
    ensures { out.new ≡ over_at (answer_at modulus n v.now pi.now challenges.now choices.now k) (k * n) out.old }
{
    let c = challenges[k];
    let at = k * n;
    first_answer_into(v, pi, c, pair_at(choices, n, k), &mut out[at..]);
}

// Writes all first answers.
pub fn answer_all(
    v: &[u8],
    pi: &[u8],
    n: usize,
    rounds: usize,
    challenges: &[u8],
    choices: &[u8],
    out: &mut [u8],
)
    requires { CardFits n rounds v.now pi.now choices.now × (rounds ≤ length challenges.now) × (rounds * n ≤ length out.old) }
    ensures { out.new ≡ over (joined rounds (answer_at modulus n v.now pi.now challenges.now choices.now)) out.old }
{
    for k in 0..rounds {
        answer_at(v, pi, n, challenges, choices, k, out);
    }
}

// Writes the opened permutation of round k at its place.
fn open_at(pi: &[u8], n: usize, bits: &[u8], choices: &[u8], k: usize, out: &mut [u8])
    requires { RoundFits n pi.now pi.now choices.now k × (k < 8 * length bits.now) × (k * n + n ≤ length out.old) }
    ensures { out.new ≡ over_at (opening_at n pi.now bits.now choices.now k) (k * n) out.old }
{
    let sigma = permutation_of(choices, n, k);
    let bit = bit_at(bits, k);
    let at = k * n;
    open_into(pi, bit, sigma, &mut out[at..]);
}

// Writes all openings.
pub fn open_all(pi: &[u8], n: usize, rounds: usize, bits: &[u8], choices: &[u8], out: &mut [u8])
    requires { CardFits n rounds pi.now pi.now choices.now × (rounds ≤ 8 * length bits.now) × (rounds * n ≤ length out.old) }
    ensures { out.new ≡ over (joined rounds (opening_at n pi.now bits.now choices.now)) out.old }
{
    for k in 0..rounds {
        open_at(pi, n, bits, choices, k, out);
    }
}
