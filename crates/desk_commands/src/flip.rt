// Flips one bit of a file, to break a message.
use desk_files::argument::{fail, number};
use desk_files::save::save;
use desk_files::slots::Lent;
use hosting::bytes::lay;
use refusals::Buffer;
use std::rt::{Env, Files};

// The arguments.
const FILE_AT: usize = 2;

const PLACE_AT: usize = 3;

const BIT_AT: usize = 4;

const OUT_AT: usize = 5;

// Bit k of the byte, the highest first, as in the bits of a sign-on.
fn flip_bit(x: u8, k: usize) -> u8 {
    x ^ (128 >> (k % 8))
}

// FILE PLACE BIT OUT
pub fn flip<R: Env + Files>(rt: &R, lent: &impl Lent, out: &mut [u8]) {
    let bytes = lay(lent.file(Buffer::NoBuffer), out);
    let place = number(rt, PLACE_AT);
    let bit = number(rt, BIT_AT);
    if bytes.len() <= place {
        fail(rt, FILE_AT, b" has no byte at that place");
        return;
    }
    if 7 < bit {
        fail(
            rt,
            BIT_AT,
            b" is no bit of a byte: bits are 0 to 7, the highest first",
        );
        return;
    }
    bytes[place] = flip_bit(bytes[place], bit);
    save(rt, OUT_AT, bytes);
}
