// What the card asks of its record and of what it is lent, in document 01's order.
#![tactic(auto)]

pub mod key;
pub mod order;
