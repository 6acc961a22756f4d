// Begin: all commitments are written.
ghost use Rattle.std.specs.Prelude.{◌≡◌, ◌≤◌, length};
ghost use Rattle.algebra.specs.Lists.{over, joined};
ghost use Rattle.kinds.specs.Kinds.{most_rounds};
ghost use Rattle.writers.specs.Writing.{frame};
ghost use Rattle.scheme.specs.Round.{as_system};
ghost use Rattle.rounds.specs.Layout.{CardFits};
ghost use Rattle.rounds.specs.Rounds.{commitments_at};
ghost use Rattle.card_rules.specs.Parts.{as_keys};
ghost use Rattle.card_rules.specs.Asking.{commitments_size};
ghost use Rattle.card_steps.specs.Steps.{BeginStep};

use card_checks::order::check_begin;
use card_rounds::commit_all;
use card_rules::keys::Keys;
use card_rules::session::{COMMITTED, Session};
use card_steps::Step;
use kinds::{AFTER_ONE, Kind, MOST_ROUNDS, PAIR};
use matrices::Matrix;
use writers::put_heading;

// Writes the frame of all commitments, for which there is room.
fn put_commitments(a: &Matrix, pi: &[u8], rounds: usize, choices: &[u8], out: &mut [u8])
    requires { CardFits a.now.n rounds pi.now pi.now choices.now × (rounds ≤ most_rounds) × (commitments_size rounds ≤ length out.old) }
    ensures { out.new ≡ over (frame Kind.Commitments rounds 0 (joined rounds (commitments_at (as_system a.now) pi.now choices.now))) out.old }
{
    put_heading(Kind::Commitments, rounds, 0, PAIR * rounds, out);
    commit_all(a, pi, rounds, choices, &mut out[AFTER_ONE..]);
}

// From idle or closed to committed.
pub fn begin_step(
    session: Session,
    rounds: usize,
    keys: &Keys,
    choices: &[u8],
    out: &mut [u8],
) -> Step
    ensures { BeginStep session rounds (as_keys keys.now) choices.now out.old result out.new }
{
    if let Err(x) = check_begin(session, rounds, keys, choices, out.len()) {
        return Step {
            told: Err(x),
            next: session,
        };
    }
    let a = keys.matrix();
    put_commitments(&a, keys.permutation(), rounds, choices, out);
    Step {
        told: Ok(AFTER_ONE + PAIR * rounds),
        next: Session {
            stage: COMMITTED,
            n: a.n as u8,
            m: a.m as u8,
            rounds: rounds as u8,
            challenges: [0u8; MOST_ROUNDS],
        },
    }
}
