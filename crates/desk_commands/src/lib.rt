// The desk's commands, but for those at the card: each is lent the files of its arguments and room for its output, calls, and saves or tells what
// came.
#![tactic(auto)]

pub mod at_register;
pub mod drawing;
pub mod flip;
pub mod new_key;
pub mod new_system;
pub mod without_key;
