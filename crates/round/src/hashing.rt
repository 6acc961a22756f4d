// SHA-256 of two strings, one after the other.
ghost use Rattle.std.specs.Prelude.{◌≡◌, ◌++◌, ◌<◌, length};
ghost use Rattle.sha256.specs.Standard.{digest_of};

use sha256::DIGEST;
use sha256::stream::{absorb, finish, start};

pub fn hash_two(x: &[u8], y: &[u8]) -> [u8; DIGEST]
    requires { (length x.now < 65536) × (length y.now < 65536) }
    ensures { result ≡ digest_of (x.now ++ y.now) }
{
    let s = absorb(start(), x);
    finish(absorb(s, y))
}
