// The choices of a card: for each round R and then sigma.
ghost use Rattle.std.specs.Prelude.{◌≡◌, ◌+◌, ◌≤◌, ◌<◌, length};
ghost use Rattle.refusals.specs.Told.{means};
ghost use Rattle.algebra.specs.Permutations.{longest};
ghost use Rattle.algebra.specs.Lists.{offsets};
ghost use Rattle.readers.specs.Choosing.{choice_size, choice_check, choices_check};

use bodies::{check_permutations, check_values};
use refusals::{Buffer, Reason, Refusal, refuse};

// One round, whose first byte is at the offset `at`.
fn check_choice(n: usize, at: usize, choice: &[u8]) -> Result<(), Refusal>
    requires { (n ≤ longest) × (length choice.now ≡ choice_size n) × (at + choice_size n < offsets) }
    ensures { means result ≡ choice_check n at choice.now }
{
    check_values(Buffer::Choices, at, &choice[..n])?;
    let end = n + n;
    check_permutations(Buffer::Choices, n, at + n, 1, &choice[n..end])
}

// The length, then the rounds in order.
pub fn check_choices(n: usize, rounds: usize, choices: &[u8]) -> Result<(), Refusal>
    requires { (n ≤ longest) × (rounds < 256) }
    ensures { means result ≡ choices_check n rounds choices.now }
{
    let size = n + n;
    if choices.len() != rounds * size {
        return refuse(Reason::Shape, Buffer::Choices, 0);
    }
    for k in 0..rounds {
        let from = k * size;
        let to = from + size;
        check_choice(n, from, &choices[from..to])?;
    }
    Ok(())
}
