// The register's verdict.
ghost use Rattle.std.specs.Prelude.{◌≡◌};
ghost use Rattle.register_rules.specs.Verdict.{sign_on, judging};
ghost use Rattle.card_for_c.specs.Answers.{answer_of};

use card_for_c::Answer;
use card_for_c::answers::of_count;
use register::decide::verdict;
use register_rules::SignOn;

// A success answers N.
#[unsafe(no_mangle)]
pub extern "C" fn signon_verdict(
    grade: usize,
    system: &[u8],
    public: &[u8],
    commitments: &[u8],
    challenges: &[u8],
    answers: &[u8],
    bits: &[u8],
    openings: &[u8],
) -> Answer
    ensures { result ≡ answer_of (judging grade (sign_on system.now public.now commitments.now challenges.now answers.now bits.now openings.now)) }
{
    let x = SignOn {
        system,
        key: public,
        commitments,
        challenges,
        answers,
        bits,
        openings,
    };
    of_count(verdict(grade, &x))
}
