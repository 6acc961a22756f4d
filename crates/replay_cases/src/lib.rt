// A case of the program `replay` and its line: the parts of the one, and the words of the other.
#![tactic(auto)]

pub mod case;
pub mod line;
