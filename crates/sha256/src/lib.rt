// SHA-256 (FIPS 180-4): the hash under every commitment.
#![tactic(auto)]

ghost use Rattle.std.specs.Prelude.{◌≡◌};
ghost use Rattle.sha256.specs.Call.{Hashes, shown};

use refusals::{Buffer, Reason, Refusal, refuse};
use stream::{absorb, finish, start};

mod bytes;
pub mod stream;

// The bytes of a digest.
pub const DIGEST: usize = 32;

// The most bytes that the hash call takes.
pub const LONGEST: usize = 65535;

// The hash call: the digest of a message of at most 65,535 bytes.
pub fn hash(message: &[u8]) -> Result<[u8; DIGEST], Refusal>
    ensures { Hashes message.now result }
{
    if LONGEST < message.len() {
        return refuse(Reason::Shape, Buffer::Choices, 0);
    }
    Ok(finish(absorb(start(), message)))
}

// The digest that the call answers; 32 zeros where it is refused.
pub fn shown(told: Result<[u8; DIGEST], Refusal>) -> [u8; DIGEST]
    ensures { result ≡ shown told }
{
    told.unwrap_or([0; DIGEST])
}
