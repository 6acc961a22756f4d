// What begin, answer and open ask before they do anything, each in its order.
ghost use Rattle.std.specs.Prelude.{◌≡◌, ◌<◌};
ghost use Rattle.refusals.specs.Told.{means};
ghost use Rattle.card_rules.specs.Lent.{KeysFit};
ghost use Rattle.card_rules.specs.Parts.{as_keys};
ghost use Rattle.card_rules.specs.Asking.{staged, rest_check, begin_check, answer_check, open_check};

use crate::key::{check_keys, check_valid};
use card_rules::keys::Keys;
use card_rules::session::{ANSWERED, COMMITTED, Session, at_rest, kept_fit, record_fits};
use frames::read::read_frame;
use kinds::{AFTER_ONE, AFTER_TWO, Expected, Kind, PAIR};
use readers::choices::check_choices;
use refusals::{Buffer, Reason, Refusal, refuse};

// STAGE, where a test of the record does not hold.
fn staged(test: bool) -> Result<(), Refusal>
    ensures { means result ≡ staged test }
{
    if !test {
        return refuse(Reason::Stage, Buffer::NoBuffer, 0);
    }
    Ok(())
}

// What comes last at each of the three: the choices, KEY, ROOM.
fn check_rest(
    keys: &Keys,
    rounds: usize,
    choices: &[u8],
    need: usize,
    room: usize,
) -> Result<(), Refusal>
    requires { KeysFit (as_keys keys.now) × (rounds < 256) }
    ensures { means result ≡ rest_check (as_keys keys.now) rounds choices.now need room }
{
    check_choices(keys.matrix().n, rounds, choices)?;
    check_valid(keys)?;
    if room < need {
        return refuse(Reason::Room, Buffer::Output, need);
    }
    Ok(())
}

pub fn check_begin(
    session: Session,
    rounds: usize,
    keys: &Keys,
    choices: &[u8],
    room: usize,
) -> Result<(), Refusal>
    ensures { means result ≡ begin_check session rounds (as_keys keys.now) choices.now room }
{
    staged(at_rest(session.stage))?;
    if !Expected::alone().rounds.contains(rounds) {
        return refuse(Reason::Shape, Buffer::NoBuffer, 0);
    }
    check_keys(keys)?;
    let need = AFTER_ONE + PAIR * rounds;
    check_rest(keys, rounds, choices, need, room)
}

pub fn check_answer(
    session: Session,
    keys: &Keys,
    message: &[u8],
    choices: &[u8],
    room: usize,
) -> Result<(), Refusal>
    ensures { means result ≡ answer_check session (as_keys keys.now) message.now choices.now room }
{
    staged(session.stage == COMMITTED)?;
    check_keys(keys)?;
    let a = keys.matrix();
    staged(record_fits(session, a.n, a.m))?;
    let rounds = usize::from(session.rounds);
    read_frame(Kind::Challenges, Expected::exactly(a.n, rounds), message)?;
    let need = AFTER_TWO + a.n * rounds;
    check_rest(keys, rounds, choices, need, room)
}

pub fn check_open(
    session: Session,
    keys: &Keys,
    message: &[u8],
    choices: &[u8],
    room: usize,
) -> Result<(), Refusal>
    ensures { means result ≡ open_check session (as_keys keys.now) message.now choices.now room }
{
    staged(session.stage == ANSWERED)?;
    check_keys(keys)?;
    let a = keys.matrix();
    staged(record_fits(session, a.n, a.m))?;
    staged(kept_fit(session))?;
    let rounds = usize::from(session.rounds);
    read_frame(Kind::Bits, Expected::exactly(a.n, rounds), message)?;
    let need = AFTER_TWO + a.n * rounds;
    check_rest(keys, rounds, choices, need, room)
}
