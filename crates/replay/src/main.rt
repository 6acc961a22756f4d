// Runs the cases of standard input over the sign-on's calls and prints what came of each. The model of tests/model writes the cases and
// what is to be printed, and says how both are spelt.
#![tactic(auto)]

ghost use Rattle.std.specs.Prelude.{◌≤◌, length, IfSome};

use crate::replay::replay;
use replay_cases::case::big_endian;

mod replay;

// Standard input.
const STDIN: i32 = 0;

// A proved loop has to end, and nothing says that the input does: no run has so many cases.
const MOST_CASES: usize = 1000000;

// Reads the next case into the space; None where no whole case is left, the space is too small, or the case is empty.
fn read_case(space: &mut [u8]) -> Option<&[u8]>
    ensures { IfSome result (λ case. length case.now ≤ length space.old) }
{
    let mut heading = [0; 4];
    if io::read_full(STDIN, &mut heading) < heading.len() {
        return None;
    }
    let case = space.get_mut(..big_endian(&heading))?;
    if case.is_empty() || io::read_full(STDIN, case) < case.len() {
        return None;
    }
    Some(case)
}

fn main() {
    let mut space = [0; 131072];
    for index in 0..MOST_CASES {
        match read_case(&mut space) {
            Some(case) => replay(index, case),
            None => break,
        }
    }
}
