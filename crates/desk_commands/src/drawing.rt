// The drawings: challenges, bits, choices.
use algebra::LONGEST;
use desk_files::argument::number;
use desk_files::save::save;
use desk_files::slots::Lent;
use desk_outcomes::refuse;
use draw::choices::draw_choices;
use draw::messages::{draw_bits, draw_challenges};
use frames::read::count_of;
use hosting::bytes::front;
use hosting::text::{say, say_with};
use kinds::{Kind, MOST_ROUNDS};
use refusals::{Buffer, Refusal};
use std::rt::{Env, Files};

// The frame that stands in front of the bytes, by its count.
pub fn frame_in(bytes: &[u8]) -> &[u8] {
    if bytes.len() < 2 {
        return &[];
    }
    front(bytes, count_of(bytes) + 2)
}

pub fn say_used(used: usize) {
    say_with(b"used ", used);
    say(b" random bytes\n");
}

// Saves what was drawn.
fn keep<R: Env + Files>(
    rt: &R,
    told: Result<usize, Refusal>,
    lent: &impl Lent,
    out_at: usize,
    drawn: &[u8],
) {
    match told {
        Err(x) => refuse(x, lent),
        Ok(used) => {
            say_used(used);
            save(rt, out_at, drawn);
        }
    }
}

// ROUNDS RANDOM OUT
pub fn challenges<R: Env + Files>(rt: &R, lent: &impl Lent, out: &mut [u8]) {
    let told = draw_challenges(number(rt, 2), lent.file(Buffer::Random), out);
    keep(rt, told, lent, 4, frame_in(out));
}

// ROUNDS RANDOM OUT
pub fn bits<R: Env + Files>(rt: &R, lent: &impl Lent, out: &mut [u8]) {
    let told = draw_bits(number(rt, 2), lent.file(Buffer::Random), out);
    keep(rt, told, lent, 4, frame_in(out));
}

// The bytes of choices: n for R and n for sigma in each round; 0 where there are none.
fn choices_size(n: usize, rounds: usize) -> usize {
    if LONGEST < n || MOST_ROUNDS < rounds {
        return 0;
    }
    2 * Kind::Answers.size(n, rounds)
}

// N ROUNDS RANDOM OUT
pub fn choices<R: Env + Files>(rt: &R, lent: &impl Lent, out: &mut [u8]) {
    let n = number(rt, 2);
    let rounds = number(rt, 3);
    let told = draw_choices(n, rounds, lent.file(Buffer::Random), out);
    keep(rt, told, lent, 5, front(out, choices_size(n, rounds)));
}
