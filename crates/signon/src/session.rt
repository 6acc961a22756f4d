// The card's calls as C functions: the host lends the record, and each call moves it on. Each has one form: the record is copied out, the step is
// called, the next record is stored.
ghost use Rattle.card_rules.specs.Keys.{keys};
ghost use Rattle.card_for_c.specs.Card.{BeginForC, AnswerForC, OpenForC, GiveUpForC};

use card_for_c::Answer;
use card_for_c::steps::{answer_for_c, begin_for_c, give_up_for_c, open_for_c};
use card_rules::keys::Keys;
use card_rules::session::Session;

// From idle or closed to committed: all commitments are written.
#[unsafe(no_mangle)]
pub extern "C" fn signon_begin(
    session: &mut Session,
    rounds: usize,
    system: &[u8],
    public: &[u8],
    secret: &[u8],
    choices: &[u8],
    out: &mut [u8],
) -> Answer
    ensures { BeginForC session.old rounds (keys system.now public.now secret.now) choices.now out.old result session.new out.new }
{
    let keys = Keys {
        system,
        public,
        secret,
    };
    let old = *session;
    let step = begin_for_c(old, rounds, &keys, choices, out);
    *session = step.next;
    step.told
}

// From committed to answered: all first answers are written.
#[unsafe(no_mangle)]
pub extern "C" fn signon_answer_challenges(
    session: &mut Session,
    system: &[u8],
    public: &[u8],
    secret: &[u8],
    challenges: &[u8],
    choices: &[u8],
    out: &mut [u8],
) -> Answer
    ensures { AnswerForC session.old (keys system.now public.now secret.now) challenges.now choices.now out.old result session.new out.new }
{
    let keys = Keys {
        system,
        public,
        secret,
    };
    let old = *session;
    let step = answer_for_c(old, &keys, challenges, choices, out);
    *session = step.next;
    step.told
}

// From answered to closed: all openings are written, and the choices zeroed.
#[unsafe(no_mangle)]
pub extern "C" fn signon_open(
    session: &mut Session,
    system: &[u8],
    public: &[u8],
    secret: &[u8],
    bits: &[u8],
    choices: &mut [u8],
    out: &mut [u8],
) -> Answer
    ensures { OpenForC session.old (keys system.now public.now secret.now) bits.now choices.old out.old result session.new choices.new out.new }
{
    let keys = Keys {
        system,
        public,
        secret,
    };
    let old = *session;
    let step = open_for_c(old, &keys, bits, choices, out);
    *session = step.next;
    step.told
}

// Record and choices are zeroed. Never refused.
#[unsafe(no_mangle)]
pub extern "C" fn signon_give_up(session: &mut Session, choices: &mut [u8]) -> Answer
    ensures { GiveUpForC session.old choices.old result session.new choices.new }
{
    let old = *session;
    let step = give_up_for_c(old, choices);
    *session = step.next;
    step.told
}
