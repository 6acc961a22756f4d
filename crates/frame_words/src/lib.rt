// Any frame in words for a person: its kind, its numbers and its values in rows, or its refusal with the place marked.
#![tactic(auto)]

use crate::mark::show_place;
use crate::values::{say_bits, say_digests, say_rows};
use frames::read::Frame;
use hosting::bytes::{behind, byte_of};
use hosting::text::{say, say_with};
use kinds::{Kind, UnknownKind};
use readers::read;
use refusal_words::tell_refusal;
use refusals::Refusal;

mod mark;
mod values;

// The rows of A'.
fn show_system(n: usize, m: usize, entries: &[u8]) {
    say_with(b"kind 1, a system: n ", n);
    say_with(b", m ", m);
    say(b"\n");
    say_rows(b"row", n.saturating_sub(m), entries);
}

// A vector or a permutation for each round.
fn show_rounds(name: &[u8], n: usize, rounds: usize, rest: &[u8]) {
    say(name);
    say_with(b": n ", n);
    say_with(b", N ", rounds);
    say(b"\n");
    say_rows(b"round", n, rest);
}

// One number, and as many values.
fn show_row(name: &[u8], label: &[u8], count: usize, rest: &[u8]) {
    say_with(name, count);
    say(b"\n");
    say_rows(label, count, rest);
}

fn show_commitments(rounds: usize, rest: &[u8]) {
    say_with(b"kind 4, commitments: N ", rounds);
    say(b"\n");
    say_digests(rest);
}

fn show_bits(rounds: usize, rest: &[u8]) {
    say_with(b"kind 7, bits: N ", rounds);
    say(b"\n");
    say_bits(rounds, rest);
}

fn show_values(kind: Kind, first: usize, second: usize, rest: &[u8]) {
    match kind {
        Kind::System => show_system(first, second, rest),
        Kind::Public => show_row(b"kind 2, a public key: n ", b"V", first, rest),
        Kind::Secret => show_row(b"kind 3, a secret key: n ", b"pi", first, rest),
        Kind::Commitments => show_commitments(first, rest),
        Kind::Challenges => show_row(b"kind 5, challenges: N ", b"c", first, rest),
        Kind::Answers => show_rounds(b"kind 6, first answers", first, second, rest),
        Kind::Bits => show_bits(first, rest),
        Kind::Openings => show_rounds(b"kind 8, openings", first, second, rest),
    }
}

fn show_refused(x: Refusal, frame: &[u8]) {
    show_place(frame, x.place);
    tell_refusal(x, frame);
}

fn show_as(kind: Kind, frame: &[u8]) {
    match read(kind, frame) {
        Err(x) => show_refused(x, frame),
        Ok(
            Frame {
                first,
                second,
                start,
            },
        ) => {
            show_values(kind, first, second, behind(frame, start));
            say(b"done\n");
        }
    }
}

// A file whose kind is none of 1 to 8 is read as a system.
pub fn show(frame: &[u8]) {
    match Kind::try_from(byte_of(frame, 3)) {
        Ok(kind) => show_as(kind, frame),
        Err(UnknownKind(number)) => {
            say_with(b"kind ", usize::from(number));
            say(b" is none of 1 to 8; read as a system:\n");
            show_as(Kind::System, frame);
        }
    }
}
