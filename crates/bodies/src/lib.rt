// The bytes of a body after its numbers.
#![tactic(auto)]

ghost use Rattle.std.specs.Prelude.{◌≡◌, ◌+◌, ◌*◌, ◌≤◌, ◌<◌, length};
ghost use Rattle.refusals.specs.Buffer.{buffer_number};
ghost use Rattle.refusals.specs.Told.{means};
ghost use Rattle.algebra.specs.Permutations.{longest};
ghost use Rattle.algebra.specs.Lists.{offsets};
ghost use Rattle.kinds.specs.Kinds.{table};
ghost use Rattle.bodies.specs.Bodies.{spare_clear, values, public_vector, permutations, content};

use algebra::MODULUS;
use algebra::permutation::is_permutation;
use kinds::Kind;
use packed_bits::unused_clear;
use refusals::{Buffer, Reason, Refusal, refuse};

// VALUE at the first residue above 250, where the first of them is at the offset `at`.
pub fn check_values(buffer: Buffer, at: usize, list: &[u8]) -> Result<(), Refusal>
    requires { at + length list.now < offsets }
    ensures { means result ≡ values (buffer_number buffer) at list.now }
{
    for (j, x) in list.iter().enumerate() {
        if MODULUS <= *x as u32 {
            return refuse(Reason::Value, buffer, at + j);
        }
    }
    Ok(())
}

// What is asked of a public vector: its range.
pub fn check_public_vector(at: usize, list: &[u8]) -> Result<(), Refusal>
    requires { at + length list.now < offsets }
    ensures { means result ≡ public_vector at list.now }
{
    check_values(Buffer::Public, at, list)
}

// PERM at the first of `count` permutations of n that is none, where the first of them is at the offset `at`.
pub fn check_permutations(
    buffer: Buffer,
    n: usize,
    at: usize,
    count: usize,
    list: &[u8],
) -> Result<(), Refusal>
    requires { (n ≤ longest) × (count * n ≤ length list.now) × (at + length list.now < offsets) }
    ensures { means result ≡ permutations (buffer_number buffer) n at count list.now }
{
    for k in 0..count {
        let from = k * n;
        let to = from + n;
        if !is_permutation(&list[from..to]) {
            return refuse(Reason::Perm, buffer, at + from);
        }
    }
    Ok(())
}

// The rest of a body with the numbers a and b.
pub fn check_content(kind: Kind, a: usize, b: usize, at: usize, rest: &[u8]) -> Result<(), Refusal>
    requires { (a ≤ longest) × (length rest.now ≡ (table kind).size a b) × (at + length rest.now < offsets) }
    ensures { means result ≡ content kind a b at rest.now }
{
    match kind {
        Kind::System | Kind::Challenges | Kind::Answers => check_values(kind.buffer(), at, rest),
        Kind::Public => check_public_vector(at, rest),
        Kind::Secret => check_permutations(kind.buffer(), a, at, 1, rest),
        Kind::Openings => check_permutations(kind.buffer(), a, at, b, rest),
        Kind::Commitments | Kind::Bits => Ok(()),
    }
}

// In the bits of N rounds no unused bit is set.
pub fn spare_clear(kind: Kind, rounds: usize, rest: &[u8]) -> bool
    requires { length rest.now < offsets }
    ensures { result ≡ spare_clear kind rounds rest.now }
{
    kind != Kind::Bits || unused_clear(rest, rounds)
}
