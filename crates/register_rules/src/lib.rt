// The sign-on that the register is lent, the verdict over it by definition, and that it is exact. The definitions and the proofs stand in specs/ and proofs/;
// the code that judges stands in the crates `register_rounds` and `register`.
#![tactic(auto)]

// The seven frames of a sign-on, of kinds 1, 2 and 4 to 8: the system, the public key and the messages.
#[derive(Clone, Copy)]
pub struct SignOn<'a> {
    pub system: &'a [u8],
    pub key: &'a [u8],
    pub commitments: &'a [u8],
    pub challenges: &'a [u8],
    pub answers: &'a [u8],
    pub bits: &'a [u8],
    pub openings: &'a [u8],
}
