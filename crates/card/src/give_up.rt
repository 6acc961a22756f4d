// Give up: record and choices are zeroed.
ghost use Rattle.card_steps.specs.Steps.{GiveUpStep};

use card_rules::session::{IDLE, Session};
use kinds::MOST_ROUNDS;

// Never refused, whatever the record and however long the choices.
#[tactic(auto, unfolding(card_steps::specs::Steps::fresh))]
pub fn give_up_step(session: Session, choices: &mut [u8]) -> Session
    ensures { GiveUpStep session choices.old result choices.new }
{
    choices.fill(0);
    Session {
        stage: IDLE,
        n: 0,
        m: 0,
        rounds: 0,
        challenges: [0u8; MOST_ROUNDS],
    }
}
