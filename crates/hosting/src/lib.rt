// What programs that call the sign-on share: lent bytes, and text on standard output.
#![tactic(auto)]

pub mod bytes;
pub mod text;
