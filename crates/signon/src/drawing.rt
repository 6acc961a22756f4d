// Drawing from lent bytes: each answers how many of them it used.
ghost use Rattle.std.specs.Prelude.{◌*◌};
ghost use Rattle.random.specs.Drawings.{draw_permutation};
ghost use Rattle.readers.specs.Choosing.{choice_size};
ghost use Rattle.kinds.specs.Kinds.{most_rounds, alone, within, frame_size};
ghost use Rattle.draw_rules.specs.Making.{draw_challenges, draw_bits, draw_choices};
ghost use Rattle.draw_rules.specs.Telling.{bare, choices_fit};
ghost use Rattle.signon.specs.Calls.{DrawForC};

use card_for_c::Answer;
use card_for_c::answers::of_count;
use draw::choices::draw_choices;
use draw::messages::{draw_bits, draw_challenges};
use draw::permutation::draw_permutation;
use kinds::Kind;

// A permutation of n.
#[unsafe(no_mangle)]
pub extern "C" fn signon_draw_permutation(n: usize, random: &[u8], out: &mut [u8]) -> Answer
    ensures { DrawForC (bare (within alone.places n)) n (draw_permutation n random.now 0) random.now out.old result out.new }
{
    of_count(draw_permutation(n, random, out))
}

// N challenges, as their frame.
#[unsafe(no_mangle)]
pub extern "C" fn signon_draw_challenges(rounds: usize, random: &[u8], out: &mut [u8]) -> Answer
    ensures { DrawForC (bare (within alone.rounds rounds)) (frame_size Kind.Challenges rounds 0) (draw_challenges rounds random.now) random.now out.old result out.new }
{
    of_count(draw_challenges(rounds, random, out))
}

// N bits, as their frame.
#[unsafe(no_mangle)]
pub extern "C" fn signon_draw_bits(rounds: usize, random: &[u8], out: &mut [u8]) -> Answer
    ensures { DrawForC (bare (within alone.rounds rounds)) (frame_size Kind.Bits rounds 0) (draw_bits rounds random.now) random.now out.old result out.new }
{
    of_count(draw_bits(rounds, random, out))
}

// The choices of N rounds.
#[unsafe(no_mangle)]
pub extern "C" fn signon_draw_choices(
    n: usize,
    rounds: usize,
    random: &[u8],
    out: &mut [u8],
) -> Answer
    ensures { DrawForC (bare (choices_fit most_rounds n rounds)) (rounds * choice_size n) (draw_choices n rounds random.now) random.now out.old result out.new }
{
    of_count(draw_choices(n, rounds, random, out))
}
