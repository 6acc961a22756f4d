// Where round k lies.
ghost use Rattle.std.specs.Prelude.{◌≡◌, ◌+◌, ◌*◌, ◌≤◌, ◌<◌, length};
ghost use Rattle.kinds.specs.Kinds.{pair_size};
ghost use Rattle.readers.specs.Choosing.{choice_size};
ghost use Rattle.round.specs.Parts.{as_pair};
ghost use Rattle.rounds.specs.Layout.{pair_at, half_start};

use kinds::PAIR;
use round::Pair;
use sha256::DIGEST;

// R of round k.
pub fn vector_of(choices: &[u8], n: usize, k: usize) -> &[u8]
    requires { k * choice_size n + choice_size n ≤ length choices.now }
    ensures { result.now ≡ (pair_at n choices.now k).vector }
{
    let at = k * (n + n);
    let end = at + n;
    &choices[at..end]
}

// sigma of round k.
pub fn permutation_of(choices: &[u8], n: usize, k: usize) -> &[u8]
    requires { k * choice_size n + choice_size n ≤ length choices.now }
    ensures { result.now ≡ (pair_at n choices.now k).permutation }
{
    let at = k * (n + n) + n;
    let end = at + n;
    &choices[at..end]
}

// Both.
pub fn pair_at(choices: &[u8], n: usize, k: usize) -> Pair
    requires { k * choice_size n + choice_size n ≤ length choices.now }
    ensures { as_pair result ≡ pair_at n choices.now k }
{
    Pair {
        vector: vector_of(choices, n, k),
        permutation: permutation_of(choices, n, k),
    }
}

// Where the commitment of a bit starts.
pub fn half_start(bit: bool, k: usize) -> usize
    requires { k < 256 }
    ensures { (result ≡ half_start bit k) × (result ≤ k * pair_size + 32) }
{
    if bit {
        return k * PAIR + DIGEST;
    }
    k * PAIR
}
