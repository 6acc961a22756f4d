// The verdict: the frames, then the grade, then the rounds.
ghost use Rattle.register_rules.specs.Verdict.{Judges};
ghost use Rattle.register_rules.specs.Parts.{as_sign_on};

use crate::check::check_frames;
use crate::grade::enough;
use kinds::FIRST_NUMBER;
use refusals::{Buffer, Reason, Refusal, refuse};
use register_rounds::judge_rounds;
use register_rules::SignOn;

// The verdict over a sign-on.
pub fn verdict(grade: usize, x: &SignOn) -> Result<usize, Refusal>
    ensures { Judges grade (as_sign_on x.now) result }
{
    check_frames(x)?;
    if !enough(grade, usize::from(x.commitments[FIRST_NUMBER])) {
        return refuse(Reason::Weak, Buffer::NoBuffer, 0);
    }
    judge_rounds(x)
}
