// A refusal as one line for a person: document 01's name, number, buffer and place, and a sentence.
#![tactic(auto)]

use crate::name::name_of;
use crate::reason::say_reason;
use hosting::text::{say, say_with};
use refusals::Refusal;

mod name;
mod reason;

// `bytes` is the buffer at fault; for STAGE it is the record.
pub fn tell_refusal(x: Refusal, bytes: &[u8]) {
    say(b"refused ");
    say(name_of(x.reason));
    say_with(b" ", usize::from(x.reason.number()));
    say_with(b" ", usize::from(x.buffer.number()));
    say_with(b" ", x.place);
    say(b": ");
    say_reason(x, bytes);
    say(b"\n");
}
