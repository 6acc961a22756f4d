// The desk's commands at the card: each is lent the files of its arguments and room for its output, calls, and saves or tells what came.
#![tactic(auto)]

use card::answer::answer_step;
use card::begin::begin_step;
use card::give_up::give_up_step;
use card::open::open_step;
use card_checks::key::check_key;
use card_rules::keys::Keys;
use card_rules::session::Session;
use card_steps::Step;
use desk_files::argument::number;
use desk_files::save::{Output, save_all};
use desk_files::slots::Lent;
use desk_outcomes::refuse;
use hosting::bytes::{front, lay};
use hosting::text::say;
use record_bytes::{record_of, session_of};
use refusals::Buffer;
use std::rt::{Env, Files};

// The arguments of begin, answer and open.
const RECORD_AT: usize = 2;

const ROUNDS_AT: usize = 3;

const CHOICES_AT: usize = 7;

const OUT_AT: usize = 8;

// The choices of give-up.
const GIVEN_UP_AT: usize = 3;

fn keys_in(lent: &impl Lent) -> Keys {
    Keys {
        system: lent.file(Buffer::System),
        public: lent.file(Buffer::Public),
        secret: lent.file(Buffer::Secret),
    }
}

// SYSTEM PUBLIC SECRET
pub fn check(lent: &impl Lent) {
    match check_key(&keys_in(lent)) {
        Err(x) => refuse(x, lent),
        Ok(()) => say(b"done\n"),
    }
}

fn session_in(lent: &impl Lent) -> Session {
    session_of(lent.file(Buffer::NoBuffer))
}

// Saves choices, record and output, in this order: nothing is shown before the record has moved on and the choices are gone.
fn keep<R: Env + Files>(rt: &R, next: Session, choices: Option<Output>, out: Option<Output>) {
    let record = Output {
        at: RECORD_AT,
        bytes: &record_of(next),
    };
    save_all(rt, &[choices, Some(record), out]);
}

fn finish<R: Env + Files>(
    rt: &R,
    step: Step,
    lent: &impl Lent,
    choices: Option<Output>,
    out: &[u8],
) {
    match step.told {
        Err(x) => refuse(x, lent),
        Ok(count) => {
            let out = Output {
                at: OUT_AT,
                bytes: front(out, count),
            };
            keep(rt, step.next, choices, Some(out));
        }
    }
}

// RECORD ROUNDS SYSTEM PUBLIC SECRET CHOICES OUT
pub fn begin<R: Env + Files>(rt: &R, lent: &impl Lent, out: &mut [u8]) {
    let step = begin_step(
        session_in(lent),
        number(rt, ROUNDS_AT),
        &keys_in(lent),
        lent.file(Buffer::Choices),
        out,
    );
    finish(rt, step, lent, None, out);
}

// RECORD SYSTEM PUBLIC SECRET CHALLENGES CHOICES OUT
pub fn answer<R: Env + Files>(rt: &R, lent: &impl Lent, out: &mut [u8]) {
    let step = answer_step(
        session_in(lent),
        &keys_in(lent),
        lent.file(Buffer::Challenges),
        lent.file(Buffer::Choices),
        out,
    );
    finish(rt, step, lent, None, out);
}

fn open_with<R: Env + Files>(rt: &R, lent: &impl Lent, choices: &mut [u8], out: &mut [u8]) {
    let step = open_step(
        session_in(lent),
        &keys_in(lent),
        lent.file(Buffer::Bits),
        choices,
        out,
    );
    let choices = Output {
        at: CHOICES_AT,
        bytes: choices,
    };
    finish(rt, step, lent, Some(choices), out);
}

// RECORD SYSTEM PUBLIC SECRET BITS CHOICES OUT
pub fn open<R: Env + Files>(rt: &R, lent: &impl Lent, room: &mut [u8], out: &mut [u8]) {
    open_with(rt, lent, lay(lent.file(Buffer::Choices), room), out);
}

fn give_up_with<R: Env + Files>(rt: &R, lent: &impl Lent, choices: &mut [u8]) {
    let next = give_up_step(session_in(lent), choices);
    let choices = Output {
        at: GIVEN_UP_AT,
        bytes: choices,
    };
    keep(rt, next, Some(choices), None);
}

// RECORD CHOICES
pub fn give_up<R: Env + Files>(rt: &R, lent: &impl Lent, room: &mut [u8]) {
    give_up_with(rt, lent, lay(lent.file(Buffer::Choices), room));
}
