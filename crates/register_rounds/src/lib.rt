// The verdict of the rounds: all pass, or the first that does not is refused by its bit.
#![tactic(auto)]

ghost use Rattle.std.specs.Prelude.{◌≡◌, ◌<◌, unwrap_or, IfSome};
ghost use Rattle.refusals.specs.Number.{reason_number};
ghost use Rattle.refusals.specs.Told.{means_count};
ghost use Rattle.register_rules.specs.Verdict.{SignOnFits, rounds_in, rounds_passed, number_of, rounds_check};
ghost use Rattle.register_rules.specs.Parts.{as_sign_on};

use kinds::{AFTER_ONE, AFTER_TWO, FIRST_NUMBER};
use packed_bits::bit_at;
use readers::matrix_of;
use refusals::{Buffer, Reason, Refusal, refuse};
use register_rules::SignOn;
use rounds::Messages;
use rounds::register::first_failing;

// The first round that does not pass.
fn failing_round(x: &SignOn) -> Option<usize>
    requires { SignOnFits (as_sign_on x.now) }
    ensures first { unwrap_or result (rounds_in (as_sign_on x.now)) ≡ rounds_passed (as_sign_on x.now) }
    ensures below { IfSome result (λ k. k < rounds_in (as_sign_on x.now)) }
{
    let a = matrix_of(x.system);
    let messages = Messages {
        commitments: &x.commitments[AFTER_ONE..],
        challenges: &x.challenges[AFTER_ONE..],
        answers: &x.answers[AFTER_TWO..],
        bits: &x.bits[AFTER_ONE..],
        openings: &x.openings[AFTER_TWO..],
    };
    let rounds = usize::from(x.commitments[FIRST_NUMBER]);
    first_failing(&a, &x.key[AFTER_ONE..], &messages, rounds)
}

// Why a sign-on is refused where a round of the bit does not pass.
fn reason_of(bit: bool) -> Reason
    ensures { reason_number result ≡ number_of bit }
{
    if bit { Reason::Second } else { Reason::First }
}

// The verdict of the rounds, once the frames fit.
pub fn judge_rounds(x: &SignOn) -> Result<usize, Refusal>
    requires { SignOnFits (as_sign_on x.now) }
    ensures { means_count result ≡ rounds_check (as_sign_on x.now) }
{
    match failing_round(x) {
        None => Ok(usize::from(x.commitments[FIRST_NUMBER])),
        Some(k) => {
            let bit = bit_at(&x.bits[AFTER_ONE..], k);
            refuse(reason_of(bit), Buffer::Openings, k)
        }
    }
}
