// The refusal that every call of the sign-on shares.
#![tactic(auto)]

ghost use Rattle.std.specs.Prelude.{◌≡◌};
ghost use Rattle.refusals.specs.Number.{reason_number};
ghost use Rattle.refusals.specs.Buffer.{buffer_number};

// Why a call is refused, by document 01's numbers. SelfCheck is its SELF.
#[derive(Clone, Copy, PartialEq, Eq)]
pub enum Reason {
    Short = 1,
    Long = 2,
    Version = 3,
    Kind = 4,
    Shape = 5,
    Value = 6,
    Perm = 7,
    Key = 8,
    Room = 9,
    Draw = 10,
    Stage = 11,
    Weak = 12,
    First = 13,
    Second = 14,
    SelfCheck = 15,
}

// The buffers by document 01's numbers. NoBuffer is named where no buffer is at fault.
#[derive(Clone, Copy, PartialEq, Eq)]
pub enum Buffer {
    NoBuffer = 0,
    System = 1,
    Public = 2,
    Secret = 3,
    Choices = 4,
    Commitments = 5,
    Challenges = 6,
    Answers = 7,
    Bits = 8,
    Openings = 9,
    Random = 10,
    Output = 11,
}

// Why a call is refused, the buffer at fault, and the place in it, which may be a length.
#[derive(Clone, Copy, PartialEq, Eq)]
pub struct Refusal {
    pub reason: Reason,
    pub buffer: Buffer,
    pub place: usize,
}

impl Reason {
    pub fn number(self) -> u8
        ensures { result ≡ reason_number self }
    {
        self as u8
    }
}

impl Buffer {
    pub fn number(self) -> u8
        ensures { result ≡ buffer_number self }
    {
        self as u8
    }
}

// A refusal, as an answer.
pub fn refuse<T>(reason: Reason, buffer: Buffer, place: usize) -> Result<T, Refusal>
    ensures { result ≡ Err (record { reason = reason; buffer = buffer; place = place }) }
{
    Err(Refusal {
        reason,
        buffer,
        place,
    })
}
