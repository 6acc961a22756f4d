// What the card's calls tell, keep and write, by definition. The code stands in the crate `card`.
#![tactic(auto)]

use card_rules::session::Session;
use refusals::Refusal;

// What a step answers; the record as it was where it refuses.
#[derive(Clone, Copy)]
pub struct Step {
    pub told: Result<usize, Refusal>,
    pub next: Session,
}
