// N rounds side by side: round k's stretch of the choices and of each message, and the register's loop over them.
#![tactic(auto)]

pub mod layout;
pub mod register;

// The bodies of the five messages, without their numbers.
#[derive(Clone, Copy)]
pub struct Messages<'a> {
    pub commitments: &'a [u8],
    pub challenges: &'a [u8],
    pub answers: &'a [u8],
    pub bits: &'a [u8],
    pub openings: &'a [u8],
}
