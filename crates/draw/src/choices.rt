// The card's choices: for each round R and then sigma.
ghost use Rattle.std.specs.Prelude.{◌≡◌, ◌*◌, ◌≤◌, ◌<◌, length};
ghost use Rattle.algebra.specs.Permutations.{longest};
ghost use Rattle.kinds.specs.Kinds.{most_rounds};
ghost use Rattle.random.specs.Drawings.{used_by, drawn_over, Enough};
ghost use Rattle.readers.specs.Choosing.{choice_size};
ghost use Rattle.draw_rules.specs.Making.{draw_choice, draw_choices};
ghost use Rattle.draw_rules.specs.Telling.{bare, choices_fit, Draws};

use crate::places_fit;
use algebra::MODULUS;
use kinds::{Limits, MOST_ROUNDS};
use random::draw::{measure_permutation, write_permutation};
use random::sequence::{measure_below, write_below};
use refusals::{Buffer, Reason, Refusal, refuse};

// Whether n is 2 to 64, and N 1 to the greatest.
fn choices_fit(greatest: usize, n: usize, rounds: usize) -> bool
    ensures { result ≡ choices_fit greatest n rounds }
{
    places_fit(n) && Limits { least: 1, greatest }.contains(rounds)
}

// How far one round takes: nothing is written.
fn measure_choice(n: usize, random: &[u8], at: usize) -> Option<usize>
    requires { n ≤ longest }
    ensures { result ≡ used_by (draw_choice n random.now at) }
{
    let p = measure_below(MODULUS, n, random, at)?;
    measure_permutation(random, p, n)
}

// How far N rounds take: nothing is written.
fn measure_choices(n: usize, rounds: usize, random: &[u8]) -> Option<usize>
    requires { n ≤ longest }
    ensures { result ≡ used_by (draw_choices n rounds random.now) }
{
    let mut p = 0;
    for _ in 0..rounds {
        p = measure_choice(n, random, p)?;
    }
    Some(p)
}

// Writes one round, for which the bytes suffice.
fn write_choice(n: usize, random: &[u8], at: usize, out: &mut [u8]) -> usize
    requires { Enough (draw_choice n random.now at) × (0 < n) × (n ≤ longest) × (choice_size n ≤ length out.old) }
    ensures { (Some result ≡ used_by (draw_choice n random.now at)) × (out.new ≡ drawn_over (draw_choice n random.now at) out.old) }
{
    let p = write_below(MODULUS, n, random, at, out);
    write_permutation(random, p, n, &mut out[n..])
}

// Writes N rounds, for which the bytes suffice.
fn write_choices(n: usize, rounds: usize, random: &[u8], out: &mut [u8])
    requires { Enough (draw_choices n rounds random.now) × (0 < n) × (n ≤ longest) × (rounds < 256) × (rounds * choice_size n ≤ length out.old) }
    ensures { out.new ≡ drawn_over (draw_choices n rounds random.now) out.old }
{
    let mut p = 0;
    for k in 0..rounds {
        p = write_choice(n, random, p, &mut out[k * (n + n)..]);
    }
}

// Draws the choices of N rounds, of which there are at most `greatest`.
fn draw_choices_up_to(
    greatest: usize,
    n: usize,
    rounds: usize,
    random: &[u8],
    out: &mut [u8],
) -> Result<usize, Refusal>
    requires { greatest < 256 }
    ensures { Draws (bare (choices_fit greatest n rounds)) (rounds * choice_size n) (draw_choices n rounds random.now) random.now out.old result out.new }
{
    if !choices_fit(greatest, n, rounds) {
        return refuse(Reason::Shape, Buffer::NoBuffer, 0);
    }
    let need = rounds * (n + n);
    if out.len() < need {
        return refuse(Reason::Room, Buffer::Output, need);
    }
    match measure_choices(n, rounds, random) {
        None => refuse(Reason::Draw, Buffer::Random, random.len()),
        Some(used) => {
            write_choices(n, rounds, random, out);
            Ok(used)
        }
    }
}

// Draws the choices of N rounds.
pub fn draw_choices(
    n: usize,
    rounds: usize,
    random: &[u8],
    out: &mut [u8],
) -> Result<usize, Refusal>
    ensures { Draws (bare (choices_fit most_rounds n rounds)) (rounds * choice_size n) (draw_choices n rounds random.now) random.now out.old result out.new }
{
    draw_choices_up_to(MOST_ROUNDS, n, rounds, random, out)
}
