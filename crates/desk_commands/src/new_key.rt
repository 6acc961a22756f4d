// A key: the public key and the secret key of a system.
use crate::drawing::frame_in;
use desk_files::argument::fail;
use desk_files::load::open_source;
use desk_files::path::read_full;
use desk_files::save::{Output, save_all};
use desk_files::slots::Lent;
use desk_outcomes::refuse;
use hosting::bytes::behind;
use hosting::text::{say, say_with};
use key_making::make_key;
use refusals::{Buffer, Reason, Refusal};
use std::io::Read;
use std::rt::{Env, Files};

// The arguments.
const RANDOM_AT: usize = 3;

const PUBLIC_AT: usize = 4;

const SECRET_AT: usize = 5;

// The random bytes of one try.
const TRY: usize = 256;

// The most tries.
const TRIES_MOST: usize = 100000;

// What came of the last try, and how many there were.
#[derive(Clone, Copy)]
struct Made {
    told: Result<usize, Refusal>,
    tries: usize,
}

// One try, with the bytes that follow in the file.
fn try_key(source: &mut impl Read, system: &[u8], out: &mut [u8]) -> Result<usize, Refusal> {
    let mut random = [0; TRY];
    let size = read_full(source, &mut random);
    make_key(system, &random[..size], out)
}

// Whether the bytes of a whole try were refused: others may do.
fn is_worth_another(told: Result<usize, Refusal>) -> bool {
    told.is_err_and(|x| x.reason == Reason::Draw && x.place == TRY)
}

fn make_from(source: &mut impl Read, system: &[u8], out: &mut [u8]) -> Made {
    for tries in 1..TRIES_MOST {
        let told = try_key(source, system, out);
        if !is_worth_another(told) {
            return Made { told, tries };
        }
    }
    Made {
        told: try_key(source, system, out),
        tries: TRIES_MOST,
    }
}

fn say_tries(tries: usize) {
    say_with(b"tries: ", tries);
    say(b"\n");
}

fn keep<R: Env + Files>(rt: &R, pair: &[u8]) {
    let public = Output {
        at: PUBLIC_AT,
        bytes: frame_in(pair),
    };
    let secret = Output {
        at: SECRET_AT,
        bytes: frame_in(behind(pair, public.bytes.len())),
    };
    save_all(rt, &[Some(public), Some(secret)]);
}

fn key_into<R: Env + Files>(rt: &R, source: &mut R::File, lent: &impl Lent, out: &mut [u8]) {
    let made = make_from(source, lent.file(Buffer::System), out);
    say_tries(made.tries);
    match made.told {
        Err(x) => refuse(x, lent),
        Ok(_) => keep(rt, out),
    }
}

// SYSTEM RANDOM PUBLIC SECRET
pub fn key<R: Env + Files>(rt: &R, lent: &impl Lent, out: &mut [u8]) {
    match open_source(rt, RANDOM_AT) {
        Ok(mut source) => key_into(rt, &mut source, lent, out),
        Err(e) => fail(rt, RANDOM_AT, e.words()),
    }
}
