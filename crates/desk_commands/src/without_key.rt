// A round made without a key.
use desk_files::argument::number;
use desk_files::slots::Lent;
use desk_outcomes::keep_written;
use refusals::Buffer;
use stand_in::stand_in;
use std::rt::{Env, Files};

// The arguments.
const CHALLENGE_AT: usize = 2;

const BIT_AT: usize = 3;

const OUT_AT: usize = 7;

// CHALLENGE BIT SYSTEM PUBLIC LENT OUT
pub fn play<R: Env + Files>(rt: &R, lent: &impl Lent, out: &mut [u8]) {
    let told = stand_in(
        number(rt, CHALLENGE_AT),
        number(rt, BIT_AT),
        lent.file(Buffer::System),
        lent.file(Buffer::Public),
        lent.file(Buffer::Choices),
        out,
    );
    keep_written(rt, told, lent, OUT_AT, out);
}
