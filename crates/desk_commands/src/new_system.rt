// A system: random entries, drawn as residues, and the writer of kind 1.
use crate::drawing::say_used;
use algebra::MODULUS;
use desk_files::argument::number;
use desk_files::slots::Lent;
use desk_outcomes::keep_written;
use kinds::{Expected, Kind};
use random::sequence::{measure_below, write_below};
use refusals::{Buffer, Reason, Refusal, refuse};
use std::rt::{Env, Files};
use writers::write_frame;

// The arguments.
const N_AT: usize = 2;

const M_AT: usize = 3;

const OUT_AT: usize = 5;

// Draws the entries into the room and writes the frame. The order is that of the drawings: the numbers, ROOM, DRAW.
fn draw_system(
    n: usize,
    m: usize,
    random: &[u8],
    room: &mut [u8],
    out: &mut [u8],
) -> Result<usize, Refusal> {
    if !Kind::System.numbers_fit(Expected::alone(), n, m) {
        return refuse(Reason::Shape, Buffer::NoBuffer, 0);
    }
    let size = Kind::System.size(n, m);
    if room.len() < size {
        return refuse(Reason::Room, Buffer::Output, size);
    }
    match measure_below(MODULUS, size, random, 0) {
        None => refuse(Reason::Draw, Buffer::Random, random.len()),
        Some(used) => {
            say_used(used);
            write_below(MODULUS, size, random, 0, room);
            write_frame(Kind::System, n, m, &room[..size], out)
        }
    }
}

// N M RANDOM OUT
pub fn system<R: Env + Files>(rt: &R, lent: &impl Lent, room: &mut [u8], out: &mut [u8]) {
    let told = draw_system(
        number(rt, N_AT),
        number(rt, M_AT),
        lent.file(Buffer::Random),
        room,
        out,
    );
    keep_written(rt, told, lent, OUT_AT, out);
}
