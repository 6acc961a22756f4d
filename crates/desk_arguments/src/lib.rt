// The desk's commands by name, what each takes, and how its arguments are taken in.
#![tactic(auto)]

pub mod command;
pub mod help;
pub mod role;
pub mod take_in;
