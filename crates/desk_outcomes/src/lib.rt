// What came of a command: a refusal is told over the files of the command, an output is saved.
#![tactic(auto)]

use desk_files::save::save;
use desk_files::slots::Lent;
use hosting::bytes::front;
use refusal_words::tell_refusal;
use refusals::Refusal;
use std::rt::{Env, Files};

pub fn refuse(x: Refusal, lent: &impl Lent) {
    tell_refusal(x, lent.file(x.buffer));
}

// Saves what was written, or tells the refusal.
pub fn keep_written<R: Env + Files>(
    rt: &R,
    told: Result<usize, Refusal>,
    lent: &impl Lent,
    at: usize,
    out: &[u8],
) {
    match told {
        Err(x) => refuse(x, lent),
        Ok(count) => save(rt, at, front(out, count)),
    }
}
