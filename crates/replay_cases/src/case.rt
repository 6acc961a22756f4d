// The parts of a case: the call's number, how many numbers the call is given, each in eight bytes, and then each buffer as four bytes of
// length and its bytes. What a damaged case lacks is 0, or empty.
ghost use Rattle.std.specs.Prelude.{◌≤◌, length};

use hosting::bytes::{behind, byte_of};
use kinds::Kind;

// A call of the card or of the register.
#[derive(Clone, Copy, PartialEq, Eq)]
pub enum SignOnCall {
    CheckKey,
    Begin,
    Answer,
    Open,
    GiveUp,
    Verdict,
}

#[derive(Clone, Copy, PartialEq, Eq)]
pub enum Call {
    Read(Kind),
    Write(Kind),
    Opening,
    Hash,
    StandIn,
    DrawPermutation,
    DrawChallenges,
    DrawBits,
    DrawChoices,
    MakeKey,
    SignOn(SignOnCall),
}

impl Call {
    // The call of this number in a case: 1 to 8 read the kinds, and 9 to 16 write them.
    pub fn of_number(number: u8) -> Option<Call> {
        match number {
            1..=8 => Kind::try_from(number).ok().map(|kind| Call::Read(kind)),
            9..=16 => Kind::try_from(number - 8)
                .ok()
                .map(|kind| Call::Write(kind)),
            17 => Some(Call::Opening),
            18 => Some(Call::Hash),
            19 => Some(Call::StandIn),
            20 => Some(Call::DrawPermutation),
            21 => Some(Call::DrawChallenges),
            22 => Some(Call::DrawBits),
            23 => Some(Call::DrawChoices),
            24 => Some(Call::MakeKey),
            25 => Some(Call::SignOn(SignOnCall::CheckKey)),
            26 => Some(Call::SignOn(SignOnCall::Begin)),
            27 => Some(Call::SignOn(SignOnCall::Answer)),
            28 => Some(Call::SignOn(SignOnCall::Open)),
            29 => Some(Call::SignOn(SignOnCall::GiveUp)),
            30 => Some(Call::SignOn(SignOnCall::Verdict)),
            _ => None,
        }
    }

    // The place of the last buffer that is lent to it for writing.
    pub fn lent_place(self) -> Option<usize> {
        match self {
            Call::Write(_)
            | Call::DrawPermutation
            | Call::DrawChallenges
            | Call::DrawBits
            | Call::DrawChoices
            | Call::SignOn(SignOnCall::GiveUp) => Some(1),
            Call::MakeKey => Some(2),
            Call::StandIn => Some(3),
            Call::SignOn(SignOnCall::Begin) => Some(5),
            Call::SignOn(SignOnCall::Answer | SignOnCall::Open) => Some(6),
            Call::Read(_)
            | Call::Opening
            | Call::Hash
            | Call::SignOn(SignOnCall::CheckKey | SignOnCall::Verdict) => None,
        }
    }
}

// The bytes as one number, the highest first.
pub fn big_endian(bytes: &[u8]) -> usize {
    bytes
        .iter()
        .fold(0, |value, x| (value << 8) | usize::from(*x))
}

// The number of the case's call.
pub fn call_number(case: &[u8]) -> u8 {
    byte_of(case, 0)
}

// Where the numbers end, and the buffers start.
fn numbers_end(case: &[u8]) -> usize
    ensures { result ≤ length case.now }
{
    case.len().min(2 + 8 * usize::from(byte_of(case, 1)))
}

pub fn number_of(case: &[u8], k: usize) -> usize {
    case.get(2..numbers_end(case))
        .unwrap_or(&[])
        .chunks_exact(8)
        .nth(k)
        .map_or(0, big_endian)
}

// The buffer whose length stands in front, and what is behind it.
fn split_buffer(bytes: &[u8]) -> (&[u8], &[u8]) {
    match bytes.split_at_checked(4) {
        Some((size, rest)) => rest.split_at(rest.len().min(big_endian(size))),
        None => (&[], &[]),
    }
}

pub fn buffer_of(case: &[u8], k: usize) -> &[u8] {
    let (mut buffer, mut rest) = split_buffer(behind(case, numbers_end(case)));
    for _ in 0..k {
        (buffer, rest) = split_buffer(rest);
    }
    buffer
}
