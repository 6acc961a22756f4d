// The register's verdict.
use desk_files::argument::number;
use desk_files::slots::Lent;
use desk_outcomes::refuse;
use hosting::text::{say, say_with};
use refusals::Buffer;
use register::decide::verdict;
use register_rules::SignOn;
use std::rt::Env;

const GRADE_AT: usize = 2;

fn say_accepted(rounds: usize) {
    say_with(b"accepted ", rounds);
    say(b"\n");
}

// GRADE SYSTEM PUBLIC COMMITMENTS CHALLENGES ANSWERS BITS OPENINGS
pub fn judge(rt: &impl Env, lent: &impl Lent) {
    let x = SignOn {
        system: lent.file(Buffer::System),
        key: lent.file(Buffer::Public),
        commitments: lent.file(Buffer::Commitments),
        challenges: lent.file(Buffer::Challenges),
        answers: lent.file(Buffer::Answers),
        bits: lent.file(Buffer::Bits),
        openings: lent.file(Buffer::Openings),
    };
    match verdict(number(rt, GRADE_AT), &x) {
        Err(refusal) => refuse(refusal, lent),
        Ok(rounds) => say_accepted(rounds),
    }
}
