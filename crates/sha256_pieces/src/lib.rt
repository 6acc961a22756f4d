// The hash call with its message absorbed in pieces, for the vectors and the benchmark: however it is cut, the contract is the call's own.
#![tactic(auto)]

ghost use Rattle.std.specs.Prelude.{◌≡◌, ◌<◌, ◌≤◌, length};
ghost use Rattle.sha256.specs.Call.{LONGEST, Hashes, shown_of, told_of};
ghost use Rattle.sha256.specs.Standard.{digest_of};

use refusals::Refusal;
use sha256::stream::{absorb, finish, start};
use sha256::{DIGEST, LONGEST, shown};

// The digest of a message that is absorbed in pieces of `size` bytes, the last of them the rest.
fn pieces(message: &[u8], size: usize) -> [u8; DIGEST]
    requires { (length message.now ≤ LONGEST) × (0 < size) }
    ensures { result ≡ digest_of message.now }
{
    let mut s = start();
    for piece in message.chunks(size) {
        s = absorb(s, piece);
    }
    finish(s)
}

// The hash call in pieces of `size` bytes; in one where `size` is 0.
pub fn in_pieces(message: &[u8], size: usize) -> Result<[u8; DIGEST], Refusal>
    ensures { Hashes message.now result }
{
    if size == 0 || LONGEST < message.len() {
        return sha256::hash(message);
    }
    Ok(pieces(message, size))
}

// A digest as C takes it.
#[repr(C)]
#[derive(Clone, Copy)]
pub struct Digest {
    pub bytes: [u8; DIGEST],
}

// `in_pieces` for C: the digest alone, 32 zeros where the call is refused.
#[unsafe(no_mangle)]
pub extern "C" fn sha256_in_pieces(message: &[u8], size: usize) -> Digest
    ensures { result.bytes ≡ shown_of (told_of message.now) message.now }
{
    Digest {
        bytes: shown(in_pieces(message, size)),
    }
}
