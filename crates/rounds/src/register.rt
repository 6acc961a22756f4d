// The register's loop: the first round that does not pass.
ghost use Rattle.std.specs.Prelude.{◌≡◌, ◌<◌, length, unwrap_or, IfSome};
ghost use Rattle.scheme.specs.Round.{as_system};
ghost use Rattle.rounds.specs.Layout.{MessagesFit};
ghost use Rattle.rounds.specs.Rounds.{passes_at, first_failing};
ghost use Rattle.rounds.specs.Parts.{as_messages};

use crate::Messages;
use crate::layout::half_start;
use matrices::Matrix;
use packed_bits::bit_at;
use round::Opened;
use round::register::passes;
use sha256::DIGEST;

// Whether round k passes.
fn passes_at(a: &Matrix, v: &[u8], x: &Messages, rounds: usize, k: usize) -> bool
    requires { (length v.now ≡ a.now.n) × MessagesFit a.now.n rounds (as_messages x.now) × (k < rounds) }
    ensures { result ≡ passes_at (as_system a.now) v.now (as_messages x.now) k }
{
    let bit = bit_at(x.bits, k);
    let start = half_start(bit, k);
    let end = start + DIGEST;
    let from = k * a.n;
    let to = from + a.n;
    let opened = Opened {
        commitment: &x.commitments[start..end],
        answer: &x.answers[from..to],
        permutation: &x.openings[from..to],
    };
    passes(a, v, x.challenges[k], bit, opened)
}

// The first of the rounds that does not pass.
pub fn first_failing(a: &Matrix, v: &[u8], x: &Messages, rounds: usize) -> Option<usize>
    requires { (length v.now ≡ a.now.n) × MessagesFit a.now.n rounds (as_messages x.now) }
    ensures first { unwrap_or result rounds ≡ first_failing (as_system a.now) v.now (as_messages x.now) rounds }
    ensures below { IfSome result (λ k. k < rounds) }
{
    (0..rounds).find(|k| !passes_at(a, v, x, rounds, *k))
}
