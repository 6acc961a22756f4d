// SHA-256.
ghost use Rattle.signon.specs.Calls.{HashForC};

use algebra::output::copy_into;
use card_for_c::Answer;
use card_for_c::answers::{of_count, refusal, success};
use refusals::{Buffer, Reason, refuse};
use sha256::{DIGEST, hash};

// The digest of a message of at most 65,535 bytes.
#[unsafe(no_mangle)]
pub extern "C" fn signon_hash(message: &[u8], out: &mut [u8]) -> Answer
    ensures { HashForC message.now out.old result out.new }
{
    let digest = match hash(message) {
        Ok(digest) => digest,
        Err(x) => return refusal(x),
    };
    if out.len() < DIGEST {
        return of_count(refuse(Reason::Room, Buffer::Output, DIGEST));
    }
    copy_into(&digest, out);
    success(DIGEST)
}
