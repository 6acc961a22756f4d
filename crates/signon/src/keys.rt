// Keys: the check of one, and the making of one.
ghost use Rattle.std.specs.Prelude.{◌≡◌};
ghost use Rattle.kinds.specs.Kinds.{alone};
ghost use Rattle.frames.specs.Reading.{first_of, reading};
ghost use Rattle.key_making.specs.Key.{draw_key_for, key_size};
ghost use Rattle.card_rules.specs.Keys.{keys, key_check};
ghost use Rattle.card_for_c.specs.Answers.{answer_of};
ghost use Rattle.signon.specs.Calls.{DrawForC};

use card_checks::key::check_key;
use card_for_c::Answer;
use card_for_c::answers::{of_count, refusal, success};
use card_rules::keys::Keys;
use key_making::make_key;
use kinds::Kind;

#[unsafe(no_mangle)]
pub extern "C" fn signon_check_key(system: &[u8], public: &[u8], secret: &[u8]) -> Answer
    ensures { result ≡ answer_of (key_check (keys system.now public.now secret.now)) }
{
    let keys = Keys {
        system,
        public,
        secret,
    };
    match check_key(&keys) {
        Ok(()) => success(0),
        Err(x) => refusal(x),
    }
}

// Draws a key for the system: the frame of the public key, and then that of the secret key.
#[unsafe(no_mangle)]
pub extern "C" fn signon_make_key(system: &[u8], random: &[u8], out: &mut [u8]) -> Answer
    ensures { DrawForC (reading Kind.System alone system.now) (key_size (first_of system.now)) (draw_key_for system.now random.now) random.now out.old result out.new }
{
    of_count(make_key(system, random, out))
}
