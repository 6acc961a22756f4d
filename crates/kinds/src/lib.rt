// The table of kinds, and the limits of their numbers.
#![tactic(auto)]

ghost use Rattle.std.specs.Prelude.{◌≡◌, ◌-◌, ◌*◌, ◌≤◌, ◌<◌};
ghost use Rattle.refusals.specs.Buffer.{buffer_number};
ghost use Rattle.kinds.specs.Kinds.{limits, alone, of_places, exactly, within, table, fits, Numbers};

use algebra::LONGEST;
use refusals::Buffer;

// A kind by document 01's number.
#[derive(Clone, Copy, PartialEq, Eq)]
pub enum Kind {
    System = 1,
    Public = 2,
    Secret = 3,
    Commitments = 4,
    Challenges = 5,
    Answers = 6,
    Bits = 7,
    Openings = 8,
}

// A number that is no kind's.
#[derive(Clone, Copy, PartialEq, Eq)]
pub struct UnknownKind(pub u8);

// Where the numbers of a body stand in a frame.
pub const FIRST_NUMBER: usize = 4;

pub const SECOND_NUMBER: usize = 5;

// Where the rest of a body starts: after one number, or after two.
pub const AFTER_ONE: usize = 5;

pub const AFTER_TWO: usize = 6;

// The most that N is.
pub const MOST_ROUNDS: usize = 64;

// The bytes of C0 and C1, the commitments of a round.
pub const PAIR: usize = 64;

// A number is fine from the least to the greatest.
#[derive(Clone, Copy)]
pub struct Limits {
    pub least: usize,
    pub greatest: usize,
}

// What is asked of n and of N.
#[derive(Clone, Copy)]
pub struct Expected {
    pub places: Limits,
    pub rounds: Limits,
}

impl Limits {
    fn new(least: usize, greatest: usize) -> Limits
        ensures { result ≡ limits least greatest }
    {
        Limits { least, greatest }
    }

    // This number and no other.
    fn only(x: usize) -> Limits
        ensures { result ≡ limits x x }
    {
        Limits::new(x, x)
    }

    pub fn contains(self, x: usize) -> bool
        ensures { result ≡ within self x }
    {
        self.least <= x && x <= self.greatest
    }
}

impl Expected {
    // What is asked of a frame alone: the limits of document 01.
    pub fn alone() -> Expected
        ensures { result ≡ alone }
    {
        Expected {
            places: Limits::new(2, LONGEST),
            rounds: Limits::new(1, MOST_ROUNDS),
        }
    }

    // What is asked inside a call once n is known.
    pub fn of_places(n: usize) -> Expected
        ensures { result ≡ of_places n }
    {
        Expected {
            places: Limits::only(n),
            rounds: Limits::new(1, MOST_ROUNDS),
        }
    }

    // The same once N is known too.
    pub fn exactly(n: usize, rounds: usize) -> Expected
        ensures { result ≡ exactly n rounds }
    {
        Expected {
            places: Limits::only(n),
            rounds: Limits::only(rounds),
        }
    }
}

impl TryFrom<u8> for Kind {
    type Error = UnknownKind;

    ghost try_from_gives = { Numbers };

    fn try_from(number: u8) -> Result<Self, UnknownKind> {
        match number {
            1 => Ok(Kind::System),
            2 => Ok(Kind::Public),
            3 => Ok(Kind::Secret),
            4 => Ok(Kind::Commitments),
            5 => Ok(Kind::Challenges),
            6 => Ok(Kind::Answers),
            7 => Ok(Kind::Bits),
            8 => Ok(Kind::Openings),
            _ => Err(UnknownKind(number)),
        }
    }
}

impl Kind {
    pub fn number(self) -> u8
        ensures { result ≡ (table self).number }
    {
        self as u8
    }

    pub fn version(self) -> u8
        ensures { result ≡ (table self).version }
    {
        match self {
            Kind::System
            | Kind::Public
            | Kind::Secret
            | Kind::Commitments
            | Kind::Challenges
            | Kind::Answers
            | Kind::Bits
            | Kind::Openings => 1,
        }
    }

    pub fn buffer(self) -> Buffer
        ensures { buffer_number result ≡ (table self).buffer }
    {
        match self {
            Kind::System => Buffer::System,
            Kind::Public => Buffer::Public,
            Kind::Secret => Buffer::Secret,
            Kind::Commitments => Buffer::Commitments,
            Kind::Challenges => Buffer::Challenges,
            Kind::Answers => Buffer::Answers,
            Kind::Bits => Buffer::Bits,
            Kind::Openings => Buffer::Openings,
        }
    }

    // Where the rest of the body starts, after one number or two.
    pub fn start(self) -> usize
        ensures { (result ≡ (table self).start) × (5 ≤ result) × (result ≤ 6) }
    {
        match self {
            Kind::System | Kind::Answers | Kind::Openings => AFTER_TWO,
            Kind::Public | Kind::Secret | Kind::Commitments | Kind::Challenges | Kind::Bits =>
                AFTER_ONE,
        }
    }

    fn first_limits(self, expected: Expected) -> Limits
        ensures { result ≡ (table self).first expected }
    {
        match self {
            Kind::System | Kind::Public | Kind::Secret | Kind::Answers | Kind::Openings => {
                expected.places
            }
            Kind::Commitments | Kind::Challenges | Kind::Bits => expected.rounds,
        }
    }

    // A number that is not there is 0.
    fn second_limits(self, expected: Expected, first: usize) -> Limits
        ensures { result ≡ (table self).second expected first }
    {
        match self {
            Kind::System => Limits::new(1, first.saturating_sub(1)),
            Kind::Answers | Kind::Openings => expected.rounds,
            Kind::Public | Kind::Secret | Kind::Commitments | Kind::Challenges | Kind::Bits =>
                Limits::only(0),
        }
    }

    // Whether the numbers are within the limits of their kind.
    pub fn numbers_fit(self, expected: Expected, first: usize, second: usize) -> bool
        ensures { result ≡ fits self expected first second }
    {
        self.first_limits(expected).contains(first)
            && self.second_limits(expected, first).contains(second)
    }

    // How many bytes the rest of a body has by its numbers.
    pub fn size(self, first: usize, second: usize) -> usize
        requires { (first < 256) × (second < 256) }
        ensures { (result ≡ (table self).size first second) × (result < 65536) }
    {
        match self {
            Kind::System => rows_size(first, second),
            Kind::Public | Kind::Secret | Kind::Challenges => first,
            Kind::Commitments => PAIR * first,
            Kind::Answers | Kind::Openings => first * second,
            Kind::Bits => (first + 7) / 8,
        }
    }
}

// m rows of n - m; none where n is less than m.
fn rows_size(n: usize, m: usize) -> usize
    requires { (n < 256) × (m < 256) }
    ensures { (result ≡ m * (n - m)) × (result < 65536) }
{
    m * n.saturating_sub(m)
}
