// The session record, its stages, and the tests of STAGE.
ghost use Rattle.std.specs.Prelude.{◌≡◌, ◌≤◌};
ghost use Rattle.kinds.specs.Kinds.{most_rounds};
ghost use Rattle.card_rules.specs.Asking.{at_rest, record_fits, kept_fit};

use algebra::MODULUS;
use kinds::{Expected, MOST_ROUNDS};

// What the host keeps of a sign-on between the card's calls. Any bytes are a record.
#[repr(C)]
#[derive(Clone, Copy)]
pub struct Session {
    pub stage: u8,
    pub n: u8,
    pub m: u8,
    pub rounds: u8,
    pub challenges: [u8; MOST_ROUNDS],
}

pub const IDLE: u8 = 0;

pub const COMMITTED: u8 = 1;

pub const ANSWERED: u8 = 2;

pub const CLOSED: u8 = 3;

// Whether no sign-on is under way.
#[tactic(auto, unfolding(crate::specs::Asking::at_rest))]
pub fn at_rest(stage: u8) -> bool
    ensures { result ≡ at_rest stage }
{
    stage == IDLE || stage == CLOSED
}

// Whether the record is of a system with this n and m, and its N is 1 to 64.
#[tactic(auto, unfolding(crate::specs::Asking::record_fits))]
pub fn record_fits(session: Session, n: usize, m: usize) -> bool
    ensures { result ≡ record_fits session n m }
{
    usize::from(session.n) == n
        && usize::from(session.m) == m
        && Expected::alone()
            .rounds
            .contains(usize::from(session.rounds))
}

// Whether the first N challenges kept are residues.
pub fn kept_fit(session: Session) -> bool
    requires { session.rounds ≤ most_rounds }
    ensures { result ≡ kept_fit session.rounds session.challenges }
{
    session.challenges[..usize::from(session.rounds)]
        .iter()
        .all(|x| u32::from(*x) < MODULUS)
}
