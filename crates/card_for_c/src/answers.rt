// Answers of the calls as C takes them.
ghost use Rattle.std.specs.Prelude.{◌≡◌, [], ◌∷◌};
ghost use Rattle.refusals.specs.Told.{done, told, means_count};
ghost use Rattle.card_for_c.specs.Answers.{answer_of};

use crate::Answer;
use refusals::Refusal;

// A success of one value.
pub fn success(value: usize) -> Answer
    ensures { result ≡ answer_of (done (value ∷ [])) }
{
    Answer {
        number: 0,
        buffer: 0,
        place: value as u64,
    }
}

pub fn refusal(x: Refusal) -> Answer
    ensures { result ≡ answer_of (told x) }
{
    Answer {
        number: x.reason.number(),
        buffer: x.buffer.number(),
        place: x.place as u64,
    }
}

// The answer of a call that counts: the bytes written or used, or the rounds accepted.
pub fn of_count(told: Result<usize, Refusal>) -> Answer
    ensures { result ≡ answer_of (means_count told) }
{
    match told {
        Ok(n) => success(n),
        Err(x) => refusal(x),
    }
}
