// The calls of the card and of the register, each with its line.
#![tactic(auto)]

ghost use Rattle.std.specs.Prelude.{◌<◌};

use card::answer::answer_step;
use card::begin::begin_step;
use card::give_up::give_up_step;
use card::open::open_step;
use card_checks::key::check_key;
use card_rules::keys::Keys;
use card_rules::session::Session;
use card_steps::Step;
use hosting::bytes::lay;
use record_bytes::{record_of, session_of};
use register::decide::verdict;
use register_rules::SignOn;
use replay_cases::case::{SignOnCall, buffer_of, number_of};
use replay_cases::line::{tell, tell_bytes, tell_done};

// The three frames from buffer k of the case on.
fn keys_in(case: &[u8], k: usize) -> Keys
    requires { k < 2 }
{
    Keys {
        system: buffer_of(case, k),
        public: buffer_of(case, k + 1),
        secret: buffer_of(case, k + 2),
    }
}

fn replay_key_check(case: &[u8]) {
    tell(check_key(&keys_in(case, 0)));
}

fn session_in(case: &[u8]) -> Session {
    session_of(buffer_of(case, 0))
}

fn tell_step(step: Step) {
    tell(step.told);
    tell_bytes(&record_of(step.next));
}

fn replay_begin(case: &[u8], out: &mut [u8]) {
    tell_step(begin_step(
        session_in(case),
        number_of(case, 0),
        &keys_in(case, 1),
        buffer_of(case, 4),
        out,
    ));
    tell_bytes(out);
}

fn replay_answer(case: &[u8], out: &mut [u8]) {
    tell_step(answer_step(
        session_in(case),
        &keys_in(case, 1),
        buffer_of(case, 4),
        buffer_of(case, 5),
        out,
    ));
    tell_bytes(out);
}

fn replay_open(case: &[u8], choices: &mut [u8], out: &mut [u8]) {
    tell_step(open_step(
        session_in(case),
        &keys_in(case, 1),
        buffer_of(case, 4),
        choices,
        out,
    ));
    tell_bytes(choices);
    tell_bytes(out);
}

// Open alone is lent two buffers for writing: the choices are laid here.
fn replay_open_in(case: &[u8], room: &mut [u8], out: &mut [u8]) {
    replay_open(case, lay(buffer_of(case, 5), room), out);
}

fn replay_give_up(case: &[u8], choices: &mut [u8]) {
    let next = give_up_step(session_in(case), choices);
    tell_done();
    tell_bytes(&record_of(next));
    tell_bytes(choices);
}

fn replay_verdict(case: &[u8]) {
    tell(verdict(
        number_of(case, 0),
        &SignOn {
            system: buffer_of(case, 0),
            key: buffer_of(case, 1),
            commitments: buffer_of(case, 2),
            challenges: buffer_of(case, 3),
            answers: buffer_of(case, 4),
            bits: buffer_of(case, 5),
            openings: buffer_of(case, 6),
        },
    ));
}

pub fn replay_sign_on(call: SignOnCall, case: &[u8], out: &mut [u8]) {
    match call {
        SignOnCall::CheckKey => replay_key_check(case),
        SignOnCall::Begin => replay_begin(case, out),
        SignOnCall::Answer => replay_answer(case, out),
        SignOnCall::Open => replay_open_in(case, &mut [0; 16384], out),
        SignOnCall::GiveUp => replay_give_up(case, out),
        SignOnCall::Verdict => replay_verdict(case),
    }
}
