// The session record as 68 bytes, for programs that keep it as such.
#![tactic(auto)]

use card_rules::session::Session;
use hosting::bytes::byte_of;
use kinds::MOST_ROUNDS;
use std::array::from_fn;

// Where the challenges start.
const CHALLENGES_AT: usize = 4;

pub const RECORD_SIZE: usize = CHALLENGES_AT + MOST_ROUNDS;

// What the bytes lack is 0.
pub fn session_of(record: &[u8]) -> Session {
    Session {
        stage: byte_of(record, 0),
        n: byte_of(record, 1),
        m: byte_of(record, 2),
        rounds: byte_of(record, 3),
        challenges: from_fn(|k| byte_of(record, CHALLENGES_AT + k)),
    }
}

pub fn record_of(session: Session) -> [u8; RECORD_SIZE] {
    let mut record = [0; RECORD_SIZE];
    record[..CHALLENGES_AT].copy_from_slice(&[session.stage, session.n, session.m, session.rounds]);
    record[CHALLENGES_AT..].copy_from_slice(&session.challenges);
    record
}
