// The program's arguments: the command is argument 1, and what it is given stands from 2 on.
ghost use Rattle.std.specs.Prelude.{◌≡◌, ◌≤◌, length};
ghost use Rattle.desk_files.specs.Numbers.{digit_of, number_in};

use hosting::text::say;
use std::env::FillError;
use std::rt::Env;

// The first argument of a command.
pub const FIRST: usize = 2;

// Whether there is such an argument.
pub fn is_present(rt: &impl Env, at: usize) -> bool {
    !matches!(rt.arg(at, &mut io::buffer()), Err(FillError::NotPresent))
}

// How many arguments the command is given.
pub fn given(rt: &impl Env) -> usize {
    (FIRST..usize::MAX)
        .position(|at| !is_present(rt, at))
        .unwrap_or(usize::MAX - FIRST)
}

// The argument, which is put into the room; empty where it is missing or longer than the room.
pub fn argument<'a>(rt: &impl Env, at: usize, room: &'a mut [u8]) -> &'a [u8]
    ensures { length result.now ≤ length room.old }
{
    let size = rt.arg(at, room).unwrap_or(0);
    &room[..size]
}

// Whether the argument is the word.
pub fn is_word(rt: &impl Env, at: usize, word: &[u8]) -> bool {
    argument(rt, at, &mut io::buffer()) == word
}

pub fn say_argument(rt: &impl Env, at: usize) {
    say(argument(rt, at, &mut io::buffer()));
}

// The last line of a command that was not run.
pub fn fail(rt: &impl Env, at: usize, words: &[u8]) {
    say(b"failed: ");
    say_argument(rt, at);
    say(words);
    say(b"\n");
}

#[tactic(auto, unfolding(crate::specs::Numbers::digit_of))]
fn digit_of(x: u8) -> Option<u16>
    ensures { result ≡ digit_of x }
{
    match x {
        b'0'..=b'9' => Some(u16::from(x - b'0')),
        _ => None,
    }
}

// The number that decimal digits say, if they are that of a u16.
fn number_in(text: &[u8]) -> Option<u16>
    ensures { result ≡ number_in text.now }
{
    if text.is_empty() {
        return None;
    }
    let mut value: u16 = 0;
    for x in text {
        value = value.checked_mul(10)?.checked_add(digit_of(*x)?)?;
    }
    Some(value)
}

pub fn number_at(rt: &impl Env, at: usize) -> Option<usize> {
    number_in(argument(rt, at, &mut io::buffer())).map(usize::from)
}

// The number that an argument is known to be.
pub fn number(rt: &impl Env, at: usize) -> usize {
    number_at(rt, at).unwrap_or(0)
}
