// The card's steps with their answers as C takes them; the record still goes by value.
#![tactic(auto)]

pub mod answers;
pub mod steps;

// What a call answers in C: a success has number 0, buffer 0 and its value as its place (0 where it has none), a refusal its number,
// buffer and place.
#[repr(C)]
#[derive(Clone, Copy)]
pub struct Answer {
    pub number: u8,
    pub buffer: u8,
    pub place: u64,
}
