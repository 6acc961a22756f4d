// The compression of SHA-256: the hash value after one block more. FIPS 180-4, section 6.2.2, steps 1 to 4.
#![tactic(auto)]

ghost use Rattle.std.specs.Prelude.{◌≡◌, length};
ghost use Rattle.compression.specs.Block.{expand_of, W, turn_of, turns_of, compress_of};

use crate::constants::K;
use word32::{big_sigma_0, big_sigma_1, ch, maj, plus, small_sigma_0, small_sigma_1, word_at};

pub mod constants;

// The eight words of a hash value, or the eight working variables.
#[derive(Clone, Copy)]
pub struct Words {
    pub a: u32,
    pub b: u32,
    pub c: u32,
    pub d: u32,
    pub e: u32,
    pub f: u32,
    pub g: u32,
    pub h: u32,
}

// A word of the schedule from the words 2, 7, 15 and 16 places before it.
#[tactic(auto, unfolding(crate::specs::Block::expand_of))]
fn expand(w2: u32, w7: u32, w15: u32, w16: u32) -> u32
    ensures { result ≡ expand_of w2 w7 w15 w16 }
{
    plus(plus(plus(small_sigma_1(w2), w7), small_sigma_0(w15)), w16)
}

// Step 1: the message schedule of a block.
fn schedule(block: &[u8]) -> [u32; 64]
    requires { length block.now ≡ 64 }
    ensures { result ≡ W block.now 64 }
{
    let mut w = [0u32; 64];
    for t in 0..16 {
        w[t] = word_at(block, 4 * t);
    }
    for t in 16..64 {
        w[t] = expand(w[t - 2], w[t - 7], w[t - 15], w[t - 16]);
    }
    w
}

// One turn of step 3, at the constant k and the word w of the schedule.
#[tactic(auto, unfolding(crate::specs::Block::turn_of, crate::specs::Block::T1, crate::specs::Block::T2))]
fn turn(s: Words, k: u32, w: u32) -> Words
    ensures { result ≡ turn_of s k w }
{
    let t1 = plus(
        plus(plus(plus(s.h, big_sigma_1(s.e)), ch(s.e, s.f, s.g)), k),
        w,
    );
    let t2 = plus(big_sigma_0(s.a), maj(s.a, s.b, s.c));
    Words {
        h: s.g,
        g: s.f,
        f: s.e,
        e: plus(s.d, t1),
        d: s.c,
        c: s.b,
        b: s.a,
        a: plus(t1, t2),
    }
}

// Step 3: the 64 turns, four at a time, so that compiled code moves fewer working variables from register to register.
fn turns(v: Words, w: &[u32; 64]) -> Words
    ensures { result ≡ turns_of w.now 64 v }
{
    let mut s = v;
    for t in (0..64).step_by(4) {
        s = turn(s, K[t], w[t]);
        s = turn(s, K[t + 1], w[t + 1]);
        s = turn(s, K[t + 2], w[t + 2]);
        s = turn(s, K[t + 3], w[t + 3]);
    }
    s
}

// The hash value after one block more.
#[tactic(auto, unfolding(crate::specs::Block::compress_of, crate::specs::Block::sum_of))]
pub fn compress(v: Words, block: &[u8]) -> Words
    requires { length block.now ≡ 64 }
    ensures { result ≡ compress_of v block.now }
{
    let w = schedule(block);
    let s = turns(v, &w);
    Words {
        a: plus(s.a, v.a),
        b: plus(s.b, v.b),
        c: plus(s.c, v.c),
        d: plus(s.d, v.d),
        e: plus(s.e, v.e),
        f: plus(s.f, v.f),
        g: plus(s.g, v.g),
        h: plus(s.h, v.h),
    }
}
