// Answer: all first answers are written, and the challenges kept.
ghost use Rattle.std.specs.Prelude.{◌≡◌, ◌≤◌, length};
ghost use Rattle.algebra.specs.Lists.{over, joined};
ghost use Rattle.algebra.specs.Residues.{modulus};
ghost use Rattle.algebra.specs.Permutations.{longest};
ghost use Rattle.kinds.specs.Kinds.{most_rounds};
ghost use Rattle.writers.specs.Writing.{frame};
ghost use Rattle.rounds.specs.Layout.{CardFits};
ghost use Rattle.rounds.specs.Rounds.{answer_at};
ghost use Rattle.card_rules.specs.Parts.{as_keys};
ghost use Rattle.card_rules.specs.Asking.{answers_size};
ghost use Rattle.card_steps.specs.Steps.{answered, AnswerStep};

use algebra::output::copy_into;
use card_checks::order::check_answer;
use card_rounds::answer_all;
use card_rules::keys::Keys;
use card_rules::session::{ANSWERED, Session};
use card_steps::Step;
use kinds::{AFTER_ONE, AFTER_TWO, Kind};
use writers::put_heading;

// Writes the frame of all first answers, for which there is room. A frame of its own on the stack: in its caller's, its rooms would lie below the checks.
#[inline(never)]
fn put_answers(
    v: &[u8],
    pi: &[u8],
    n: usize,
    rounds: usize,
    challenges: &[u8],
    choices: &[u8],
    out: &mut [u8],
)
    requires { CardFits n rounds v.now pi.now choices.now × (n ≤ longest) × (rounds ≤ most_rounds) × (rounds ≤ length challenges.now) × (answers_size n rounds ≤ length out.old) }
    ensures { out.new ≡ over (frame Kind.Answers n rounds (joined rounds (answer_at modulus n v.now pi.now challenges.now choices.now))) out.old }
{
    put_heading(Kind::Answers, n, rounds, n * rounds, out);
    answer_all(v, pi, n, rounds, challenges, choices, &mut out[AFTER_TWO..]);
}

// The record with the challenges kept: the new ones over the first of those before.
#[tactic(auto, unfolding(card_steps::specs::Steps::answered))]
fn with_challenges(session: Session, challenges: &[u8]) -> Session
    requires { length challenges.now ≤ most_rounds }
    ensures { result ≡ answered session challenges.now }
{
    let mut kept = session.challenges;
    copy_into(challenges, &mut kept);
    Session {
        stage: ANSWERED,
        challenges: kept,
        ..session
    }
}

// From committed to answered.
pub fn answer_step(
    session: Session,
    keys: &Keys,
    message: &[u8],
    choices: &[u8],
    out: &mut [u8],
) -> Step
    ensures { AnswerStep session (as_keys keys.now) message.now choices.now out.old result out.new }
{
    if let Err(x) = check_answer(session, keys, message, choices, out.len()) {
        return Step {
            told: Err(x),
            next: session,
        };
    }
    let n = keys.matrix().n;
    let rounds = usize::from(session.rounds);
    let challenges = &message[AFTER_ONE..];
    put_answers(
        keys.vector(),
        keys.permutation(),
        n,
        rounds,
        challenges,
        choices,
        out,
    );
    Step {
        told: Ok(AFTER_TWO + n * rounds),
        next: with_challenges(session, challenges),
    }
}
