// The card's steps with their answers as C takes them. The record still goes by value.
ghost use Rattle.card_rules.specs.Parts.{as_keys};
ghost use Rattle.card_for_c.specs.Card.{BeginForC, AnswerForC, OpenForC, GiveUpForC};

use crate::Answer;
use crate::answers::{of_count, success};
use card::answer::answer_step;
use card::begin::begin_step;
use card::give_up::give_up_step;
use card::open::open_step;
use card_rules::keys::Keys;
use card_rules::session::Session;

// What a step answers in C, and the next record.
#[derive(Clone, Copy)]
pub struct Stepped {
    pub told: Answer,
    pub next: Session,
}

pub fn begin_for_c(
    session: Session,
    rounds: usize,
    keys: &Keys,
    choices: &[u8],
    out: &mut [u8],
) -> Stepped
    ensures { BeginForC session rounds (as_keys keys.now) choices.now out.old result.told result.next out.new }
{
    let step = begin_step(session, rounds, keys, choices, out);
    Stepped {
        told: of_count(step.told),
        next: step.next,
    }
}

pub fn answer_for_c(
    session: Session,
    keys: &Keys,
    challenges: &[u8],
    choices: &[u8],
    out: &mut [u8],
) -> Stepped
    ensures { AnswerForC session (as_keys keys.now) challenges.now choices.now out.old result.told result.next out.new }
{
    let step = answer_step(session, keys, challenges, choices, out);
    Stepped {
        told: of_count(step.told),
        next: step.next,
    }
}

pub fn open_for_c(
    session: Session,
    keys: &Keys,
    bits: &[u8],
    choices: &mut [u8],
    out: &mut [u8],
) -> Stepped
    ensures { OpenForC session (as_keys keys.now) bits.now choices.old out.old result.told result.next choices.new out.new }
{
    let step = open_step(session, keys, bits, choices, out);
    Stepped {
        told: of_count(step.told),
        next: step.next,
    }
}

pub fn give_up_for_c(session: Session, choices: &mut [u8]) -> Stepped
    ensures { GiveUpForC session choices.old result.told result.next choices.new }
{
    Stepped {
        told: success(0),
        next: give_up_step(session, choices),
    }
}
