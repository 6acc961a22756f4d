// A part of a buffer, and the bytes of a hash value: FIPS 180-4, section 6.2.2.
ghost use Rattle.std.specs.Prelude.{◌≡◌, ◌+◌, ◌≤◌, length};
ghost use Rattle.std.proofs.Math.Seq.{paste};
ghost use Rattle.sha256.specs.Standard.{bytes_of};

use crate::DIGEST;
use compression::Words;

// Lays a part into a buffer, from place `at` on. Not by copy_from_slice, which would have the archive ask its host for memmove.
pub fn lay(buffer: &mut [u8], at: usize, part: &[u8])
    requires { at + length part.now ≤ length buffer.old }
    ensures { buffer.new ≡ paste buffer.old at part.now (length part.now) }
{
    for (j, x) in part.iter().enumerate() {
        buffer[at + j] = *x;
    }
}

// The bytes of a hash value, word by word.
pub fn bytes_of(v: Words) -> [u8; DIGEST]
    ensures { result ≡ bytes_of v }
{
    let words = [v.a, v.b, v.c, v.d, v.e, v.f, v.g, v.h];
    let mut out = [0u8; DIGEST];
    for (i, word) in words.iter().enumerate() {
        lay(&mut out, 4 * i, &word.to_be_bytes());
    }
    out
}
