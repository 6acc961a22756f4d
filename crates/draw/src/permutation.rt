// A permutation.
ghost use Rattle.random.specs.Drawings.{draw_permutation};
ghost use Rattle.kinds.specs.Kinds.{alone, within};
ghost use Rattle.draw_rules.specs.Telling.{bare, Draws};

use crate::places_fit;
use refusals::{Buffer, Reason, Refusal, refuse};

// Draws a permutation of n.
pub fn draw_permutation(n: usize, random: &[u8], out: &mut [u8]) -> Result<usize, Refusal>
    ensures { Draws (bare (within alone.places n)) n (draw_permutation n random.now 0) random.now out.old result out.new }
{
    if !places_fit(n) {
        return refuse(Reason::Shape, Buffer::NoBuffer, 0);
    }
    if out.len() < n {
        return refuse(Reason::Room, Buffer::Output, n);
    }
    match random::draw::draw_permutation(random, 0, n, out) {
        None => refuse(Reason::Draw, Buffer::Random, random.len()),
        Some(used) => Ok(used),
    }
}
