// The host's boundary: every call as a C function, over memory that the host lends.
#![tactic(auto)]

pub mod drawing;
pub mod hash;
pub mod keys;
pub mod read;
pub mod session;
pub mod standing;
pub mod verdict;
pub mod write;
