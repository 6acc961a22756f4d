// Open: all openings are written once the card's own check has passed, and the choices are zeroed.
ghost use Rattle.std.specs.Prelude.{◌≡◌, ◌*◌, ◌≤◌, length};
ghost use Rattle.refusals.specs.Told.{means};
ghost use Rattle.algebra.specs.Lists.{over, joined};
ghost use Rattle.algebra.specs.Permutations.{longest};
ghost use Rattle.kinds.specs.Kinds.{most_rounds};
ghost use Rattle.writers.specs.Writing.{frame};
ghost use Rattle.rounds.specs.Layout.{CardFits};
ghost use Rattle.rounds.specs.Rounds.{opening_at};
ghost use Rattle.card_rules.specs.Parts.{as_keys};
ghost use Rattle.card_rules.specs.Asking.{openings_size};
ghost use Rattle.card_steps.specs.Steps.{OpenReady, own_check, open_refusal, OpenStep};

use card_checks::order::check_open;
use card_rounds::open_all;
use card_rules::keys::Keys;
use card_rules::session::{CLOSED, Session};
use card_steps::Step;
use kinds::{AFTER_ONE, AFTER_TWO, Kind};
use own_check::own_failing;
use refusals::{Buffer, Reason, Refusal, refuse};
use writers::put_heading;

// Writes the frame of all openings, for which there is room.
fn put_openings(pi: &[u8], n: usize, rounds: usize, bits: &[u8], choices: &[u8], out: &mut [u8])
    requires { CardFits n rounds pi.now pi.now choices.now × (n ≤ longest) × (rounds ≤ most_rounds) × (rounds ≤ 8 * length bits.now) × (openings_size n rounds ≤ length out.old) }
    ensures { out.new ≡ over (frame Kind.Openings n rounds (joined rounds (opening_at n pi.now bits.now choices.now))) out.old }
{
    put_heading(Kind::Openings, n, rounds, n * rounds, out);
    open_all(pi, n, rounds, bits, choices, &mut out[AFTER_TWO..]);
}

// SELF: one function, called last. The frames and the record have passed their checks.
fn check_own(session: Session, keys: &Keys, message: &[u8], choices: &[u8]) -> Result<(), Refusal>
    requires { OpenReady session (as_keys keys.now) message.now choices.now }
    ensures { means result ≡ own_check session (as_keys keys.now) message.now choices.now }
{
    let rounds = usize::from(session.rounds);
    match own_failing(
        &keys.matrix(),
        keys.vector(),
        keys.permutation(),
        rounds,
        choices,
        session.challenges,
        &message[AFTER_ONE..],
    ) {
        Some(round) => refuse(Reason::SelfCheck, Buffer::Choices, round),
        None => Ok(()),
    }
}

// All that may refuse: the checks, and the card's own check at last.
fn check_all(
    session: Session,
    keys: &Keys,
    message: &[u8],
    choices: &[u8],
    room: usize,
) -> Result<(), Refusal>
    ensures { means result ≡ open_refusal session (as_keys keys.now) message.now choices.now room }
{
    check_open(session, keys, message, choices, room)?;
    check_own(session, keys, message, choices)
}

// From answered to closed.
pub fn open_step(
    session: Session,
    keys: &Keys,
    message: &[u8],
    choices: &mut [u8],
    out: &mut [u8],
) -> Step
    ensures { OpenStep session (as_keys keys.now) message.now choices.old out.old result choices.new out.new }
{
    if let Err(x) = check_all(session, keys, message, &choices[..], out.len()) {
        return Step {
            told: Err(x),
            next: session,
        };
    }
    let n = keys.matrix().n;
    let rounds = usize::from(session.rounds);
    put_openings(
        keys.permutation(),
        n,
        rounds,
        &message[AFTER_ONE..],
        &choices[..],
        out,
    );
    choices.fill(0);
    Step {
        told: Ok(AFTER_TWO + n * rounds),
        next: Session {
            stage: CLOSED,
            ..session
        },
    }
}
