// Arguments, and files by the arguments that name them: all are read before anything is done, and replaced whole or not at all.
#![tactic(auto)]

pub mod argument;
mod fault;
pub mod load;
pub mod path;
pub mod save;
pub mod slots;
