// What the card asks of its record and of what it is lent, by definition; the session record, the tests of STAGE, and the frames of the keys.
#![tactic(auto)]

pub mod keys;
pub mod session;
