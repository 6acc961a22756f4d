// The frames of a sign-on, in order.
ghost use Rattle.std.specs.Prelude.{◌≡◌, ◌≤◌};
ghost use Rattle.refusals.specs.Told.{means};
ghost use Rattle.algebra.specs.Permutations.{longest};
ghost use Rattle.kinds.specs.Kinds.{most_rounds};
ghost use Rattle.register_rules.specs.Verdict.{basis_check, exchange_check, frames_check};
ghost use Rattle.register_rules.specs.Parts.{as_sign_on};

use frames::read::read_frame;
use kinds::{Expected, FIRST_NUMBER, Kind};
use readers::read;
use refusals::Refusal;
use register_rules::SignOn;

// The system, the public key and the commitments, which fix n and N.
fn check_basis(x: &SignOn) -> Result<(), Refusal>
    ensures { means result ≡ basis_check x.now.system.now x.now.key.now x.now.commitments.now }
{
    read(Kind::System, x.system)?;
    let expected = Expected::of_places(usize::from(x.system[FIRST_NUMBER]));
    read_frame(Kind::Public, expected, x.key)?;
    read_frame(Kind::Commitments, expected, x.commitments)?;
    Ok(())
}

// The messages that follow.
fn check_exchange(n: usize, rounds: usize, x: &SignOn) -> Result<(), Refusal>
    requires { (n ≤ longest) × (rounds ≤ most_rounds) }
    ensures { means result ≡ exchange_check n rounds x.now.challenges.now x.now.answers.now x.now.bits.now x.now.openings.now }
{
    let expected = Expected::exactly(n, rounds);
    read_frame(Kind::Challenges, expected, x.challenges)?;
    read_frame(Kind::Answers, expected, x.answers)?;
    read_frame(Kind::Bits, expected, x.bits)?;
    read_frame(Kind::Openings, expected, x.openings)?;
    Ok(())
}

// All of them.
pub fn check_frames(x: &SignOn) -> Result<(), Refusal>
    ensures { means result ≡ frames_check (as_sign_on x.now) }
{
    check_basis(x)?;
    let n = usize::from(x.system[FIRST_NUMBER]);
    let rounds = usize::from(x.commitments[FIRST_NUMBER]);
    check_exchange(n, rounds, x)
}
