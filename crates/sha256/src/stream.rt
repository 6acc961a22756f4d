// SHA-256 of a message that comes in parts: `start`, `absorb` each part, `finish`. No part is copied to another.
ghost use Rattle.std.specs.Prelude.{◌≡◌, List, [], ◌++◌, ℕ, ◌+◌, ◌%◌, ◌<◌, ◌≤◌, ◌^◌, length, take, replicate};
ghost use Rattle.sha256.specs.Standard.{zeros, padding, digest_of};
ghost use Rattle.sha256.specs.Absorbed.{Absorbed, Absorbs, Chained};

use crate::DIGEST;
use crate::bytes::{bytes_of, lay};
use compression::constants::initial;
use compression::{Words, compress};

// What has been absorbed: the hash value of the whole blocks, the bytes since, at the front of the buffer, and the count of all bytes.
#[derive(Clone, Copy)]
pub struct Stream {
    pub words: Words,
    pub buffer: [u8; 64],
    pub count: usize,
}

// A stream that has absorbed nothing.
#[tactic(auto, unfolding(crate::specs::Standard::hash_value))]
pub fn start() -> Stream
    ensures { Absorbed result [] }
{
    Stream {
        words: initial(),
        buffer: [0u8; 64],
        count: 0,
    }
}

// Absorbs a part that does not end the block: it waits in the buffer.
fn wait(mut s: Stream, part: &[u8]) -> Stream
    requires { (s.count < 2 ^ 61) × (s.count % 64 + length part.now < 64) }
    ensures { Absorbs s part.now result }
{
    let at = s.count % 64;
    lay(&mut s.buffer, at, part);
    s.count += part.len();
    s
}

// Absorbs a part that ends the block.
fn fill(mut s: Stream, part: &[u8]) -> Stream
    requires { (s.count < 2 ^ 61) × (s.count % 64 + length part.now ≡ 64) }
    ensures { Absorbs s part.now result }
{
    let at = s.count % 64;
    lay(&mut s.buffer, at, part);
    s.words = compress(s.words, &s.buffer);
    s.count += part.len();
    s
}

// The hash value after the blocks of a part more, straight from the slice.
fn blocks(words: Words, part: &[u8]) -> Words
    requires { length part.now % 64 ≡ 0 }
    ensures { (m : List ℕ) → Chained words m → Chained result (m ++ part.now) }
{
    let mut v = words;
    for block in part.chunks_exact(64) {
        v = compress(v, block);
    }
    v
}

// Absorbs a part, where no byte waits: its whole blocks, then the rest.
fn whole(mut s: Stream, part: &[u8]) -> Stream
    requires { (s.count + length part.now < 2 ^ 61) × (s.count % 64 ≡ 0) }
    ensures { Absorbs s part.now result }
{
    let (front, rest) = part.split_at(part.len() - part.len() % 64);
    s.words = blocks(s.words, front);
    s.count += front.len();
    wait(s, rest)
}

// Absorbs a part.
pub fn absorb(s: Stream, part: &[u8]) -> Stream
    requires { s.count + length part.now < 2 ^ 61 }
    ensures { Absorbs s part.now result }
{
    let room = 64 - s.count % 64;
    if part.len() < room {
        return wait(s, part);
    }
    if room == 64 {
        return whole(s, part);
    }
    let (front, rest) = part.split_at(room);
    let r = fill(s, front);
    whole(r, rest)
}

// The zeros of the padding of n bytes: with the mark and the count of bits they end the block that waits, or the next.
#[tactic(auto, unfolding(crate::specs::Standard::zeros))]
fn zeros_of(n: usize) -> usize
    ensures { (result ≡ zeros n) × (n % 64 + result ≤ 119) × ((n % 64 + result + 9) % 64 ≡ 0) }
{
    (119 - n % 64) % 64
}

// Lays the bytes that wait in the buffer at the end of a message of n bytes, and its padding, into a tail of zeros.
fn lay_end(tail: &mut [u8], buffer: &[u8], n: usize)
    requires { (n < 2 ^ 61) × (length buffer.now ≡ 64) × (tail.old ≡ replicate 128 0) }
    ensures { take (n % 64 + zeros n + 9) tail.new ≡ take (n % 64) buffer.now ++ padding n }
{
    let at = n % 64;
    let bits_at = at + zeros_of(n) + 1;
    let bits = 8 * (n as u64);
    lay(tail, 0, &buffer[..at]);
    tail[at] = 0x80;
    lay(tail, bits_at, &bits.to_be_bytes());
}

// The digest of all that was absorbed.
pub fn finish(s: Stream) -> [u8; DIGEST]
    requires { s.count < 2 ^ 61 }
    ensures { (m : List ℕ) → Absorbed s m → result ≡ digest_of m }
{
    let n = s.count;
    let end = n % 64 + zeros_of(n) + 9;
    let mut tail = [0u8; 128];
    lay_end(&mut tail, &s.buffer, n);
    bytes_of(blocks(s.words, &tail[..end]))
}
