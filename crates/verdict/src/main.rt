// The verdict program: reads a grade byte and the frames of kinds 1, 2 and 4 to 8 end to end, and prints the verdict as one line.
#![tactic(auto)]

use crate::tell::tell;
use register_input::judge;

mod tell;

// Standard input.
const STDIN: i32 = 0;

// The most bytes that are read; later ones do not exist.
const MOST_BYTES: usize = 65536;

fn main() {
    let mut space = [0; MOST_BYTES];
    let size = io::read_full(STDIN, &mut space);
    tell(judge(&space[..size]));
}
