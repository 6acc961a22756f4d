// Readers: each answers the first number plus 256 times the second. And the place of a named round's opening.
ghost use Rattle.std.specs.Prelude.{◌≡◌};
ghost use Rattle.card_for_c.specs.Answers.{answer_of};
ghost use Rattle.signon.specs.Calls.{ReadForC, opening_told};

use card_for_c::Answer;
use card_for_c::answers::{refusal, success};
use kinds::{FIRST_NUMBER, Kind};
use readers::opening::check_opening;
use readers::read;

// What the second number counts in an answer: the first is a byte.
const BYTE: usize = 256;

// A frame of any kind.
fn read_for_c(kind: Kind, frame: &[u8]) -> Answer
    ensures { ReadForC kind frame.now result }
{
    match read(kind, frame) {
        Ok(frame) => success(frame.first + BYTE * frame.second),
        Err(x) => refusal(x),
    }
}

#[unsafe(no_mangle)]
pub extern "C" fn signon_read_system(frame: &[u8]) -> Answer
    ensures { ReadForC Kind.System frame.now result }
{
    read_for_c(Kind::System, frame)
}

#[unsafe(no_mangle)]
pub extern "C" fn signon_read_public_key(frame: &[u8]) -> Answer
    ensures { ReadForC Kind.Public frame.now result }
{
    read_for_c(Kind::Public, frame)
}

#[unsafe(no_mangle)]
pub extern "C" fn signon_read_secret_key(frame: &[u8]) -> Answer
    ensures { ReadForC Kind.Secret frame.now result }
{
    read_for_c(Kind::Secret, frame)
}

#[unsafe(no_mangle)]
pub extern "C" fn signon_read_commitments(frame: &[u8]) -> Answer
    ensures { ReadForC Kind.Commitments frame.now result }
{
    read_for_c(Kind::Commitments, frame)
}

#[unsafe(no_mangle)]
pub extern "C" fn signon_read_challenges(frame: &[u8]) -> Answer
    ensures { ReadForC Kind.Challenges frame.now result }
{
    read_for_c(Kind::Challenges, frame)
}

#[unsafe(no_mangle)]
pub extern "C" fn signon_read_first_answers(frame: &[u8]) -> Answer
    ensures { ReadForC Kind.Answers frame.now result }
{
    read_for_c(Kind::Answers, frame)
}

#[unsafe(no_mangle)]
pub extern "C" fn signon_read_bits(frame: &[u8]) -> Answer
    ensures { ReadForC Kind.Bits frame.now result }
{
    read_for_c(Kind::Bits, frame)
}

#[unsafe(no_mangle)]
pub extern "C" fn signon_read_openings(frame: &[u8]) -> Answer
    ensures { ReadForC Kind.Openings frame.now result }
{
    read_for_c(Kind::Openings, frame)
}

// The offset of the round's permutation in the openings frame.
#[unsafe(no_mangle)]
pub extern "C" fn signon_check_opening(openings: &[u8], round: usize) -> Answer
    ensures { result ≡ answer_of (opening_told openings.now round) }
{
    match check_opening(openings, round) {
        Ok(()) => success(Kind::Openings.start() + round * usize::from(openings[FIRST_NUMBER])),
        Err(x) => refusal(x),
    }
}
