// Drawing from lent bytes. Each call measures first and writes then, so that bytes that run out leave the output as it was.
#![tactic(auto)]

ghost use Rattle.std.specs.Prelude.{◌≡◌, ◌≤◌, ◌<◌};
ghost use Rattle.algebra.specs.Permutations.{longest};
ghost use Rattle.kinds.specs.Kinds.{within, alone, frame_size};

use kinds::{Expected, Kind};

pub mod choices;
pub mod messages;
pub mod permutation;

// Whether n is 2 to 64.
fn places_fit(n: usize) -> bool
    ensures { result ≡ within alone.places n }
{
    Expected::alone().places.contains(n)
}

// Whether N is 1 to 64.
fn rounds_fit(rounds: usize) -> bool
    ensures { result ≡ within alone.rounds rounds }
{
    Expected::alone().rounds.contains(rounds)
}

// The bytes of a frame that has one number.
pub fn frame_size(kind: Kind, number: usize) -> usize
    requires { number ≤ longest }
    ensures { (result ≡ frame_size kind number 0) × (result < 70000) }
{
    kind.start() + kind.size(number, 0)
}
