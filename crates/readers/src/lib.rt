// The reader of a frame of any kind; the opening of a named round; and the choices of a card.
#![tactic(auto)]

ghost use Rattle.std.specs.Prelude.{◌≡◌, ◌≤◌, length};
ghost use Rattle.matrices.specs.Matrices.{SystemFits};
ghost use Rattle.frames.specs.Reading.{Reads, first_of, second_of, rest_of};
ghost use Rattle.kinds.specs.Kinds.{alone};

use frames::read::{Frame, read_frame};
use kinds::{AFTER_TWO, Expected, FIRST_NUMBER, Kind, SECOND_NUMBER};
use matrices::Matrix;
use refusals::Refusal;

pub mod choices;
pub mod opening;

// Reads a frame of a kind, alone.
pub fn read(kind: Kind, frame: &[u8]) -> Result<Frame, Refusal>
    ensures { Reads kind alone frame.now result }
{
    read_frame(kind, Expected::alone(), frame)
}

// The matrix that lies in the frame of a system.
pub fn matrix_of(system: &[u8]) -> Matrix
    requires { (6 ≤ length system.now) × SystemFits (rest_of Kind.System system.now) (first_of system.now) (second_of Kind.System system.now) }
    ensures entries { result.entries.now ≡ rest_of Kind.System system.now }
    ensures places { result.n ≡ first_of system.now }
    ensures rows { result.m ≡ second_of Kind.System system.now }
{
    Matrix {
        entries: &system[AFTER_TWO..],
        n: usize::from(system[FIRST_NUMBER]),
        m: usize::from(system[SECOND_NUMBER]),
    }
}
