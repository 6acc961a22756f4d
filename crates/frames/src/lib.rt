// Frames: keys and messages as bytes, with one spelling for each value. What is read here is read by the readers, and inside the calls.
#![tactic(auto)]

pub mod read;
