// The register's messages: challenges and bits, as frames.
ghost use Rattle.std.specs.Prelude.{◌≡◌, ◌≤◌, ◌<◌, length};
ghost use Rattle.random.specs.Drawings.{drawn_over, Enough};
ghost use Rattle.kinds.specs.Kinds.{most_rounds, alone, within, frame_size};
ghost use Rattle.packed_bits.specs.Clearing.{packed_size};
ghost use Rattle.random.specs.Sequences.{some_below, byte_limit, draw_residues};
ghost use Rattle.draw_rules.specs.Making.{draw_challenges, draw_bits};
ghost use Rattle.draw_rules.specs.Telling.{bare, Draws};

use crate::{frame_size, rounds_fit};
use algebra::MODULUS;
use kinds::{Kind, MOST_ROUNDS};
use packed_bits::clear_unused;
use random::sequence::{measure_below, write_below};
use refusals::{Buffer, Reason, Refusal, refuse};
use writers::put_frame;

// Every byte is below this.
const BYTE_LIMIT: u32 = 256;

// Draws N challenges.
pub fn draw_challenges(rounds: usize, random: &[u8], out: &mut [u8]) -> Result<usize, Refusal>
    ensures { Draws (bare (within alone.rounds rounds)) (frame_size Kind.Challenges rounds 0) (draw_challenges rounds random.now) random.now out.old result out.new }
{
    if !rounds_fit(rounds) {
        return refuse(Reason::Shape, Buffer::NoBuffer, 0);
    }
    let need = frame_size(Kind::Challenges, rounds);
    if out.len() < need {
        return refuse(Reason::Room, Buffer::Output, need);
    }
    match measure_below(MODULUS, rounds, random, 0) {
        None => refuse(Reason::Draw, Buffer::Random, random.len()),
        Some(used) => {
            write_challenges(rounds, random, out);
            Ok(used)
        }
    }
}

// Writes N challenges, for which the bytes suffice.
fn write_challenges(rounds: usize, random: &[u8], out: &mut [u8])
    requires { Enough (draw_residues rounds random.now 0) × (rounds ≤ most_rounds) × (frame_size Kind.Challenges rounds 0 ≤ length out.old) }
    ensures { out.new ≡ drawn_over (draw_challenges rounds random.now) out.old }
{
    let mut room = [0u8; MOST_ROUNDS];
    write_below(MODULUS, rounds, random, 0, &mut room);
    put_frame(Kind::Challenges, rounds, 0, &room[..rounds], out);
}

// Draws N bits.
pub fn draw_bits(rounds: usize, random: &[u8], out: &mut [u8]) -> Result<usize, Refusal>
    ensures { Draws (bare (within alone.rounds rounds)) (frame_size Kind.Bits rounds 0) (draw_bits rounds random.now) random.now out.old result out.new }
{
    if !rounds_fit(rounds) {
        return refuse(Reason::Shape, Buffer::NoBuffer, 0);
    }
    let need = frame_size(Kind::Bits, rounds);
    if out.len() < need {
        return refuse(Reason::Room, Buffer::Output, need);
    }
    match measure_below(BYTE_LIMIT, Kind::Bits.size(rounds, 0), random, 0) {
        None => refuse(Reason::Draw, Buffer::Random, random.len()),
        Some(used) => {
            write_bits(rounds, random, out);
            Ok(used)
        }
    }
}

// Writes N bits, for which the bytes suffice.
fn write_bits(rounds: usize, random: &[u8], out: &mut [u8])
    requires { Enough (some_below byte_limit (packed_size rounds) random.now 0) × (0 < rounds) × (rounds ≤ most_rounds) × (frame_size Kind.Bits rounds 0 ≤ length out.old) }
    ensures { out.new ≡ drawn_over (draw_bits rounds random.now) out.old }
{
    let size = Kind::Bits.size(rounds, 0);
    let mut room = [0u8; MOST_ROUNDS];
    write_below(BYTE_LIMIT, size, random, 0, &mut room);
    clear_unused(rounds, &mut room);
    put_frame(Kind::Bits, rounds, 0, &room[..size], out);
}
