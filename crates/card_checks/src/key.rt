// The frames of system, public key and secret key, and whether the key is valid.
ghost use Rattle.std.specs.Prelude.{◌≡◌};
ghost use Rattle.refusals.specs.Told.{means};
ghost use Rattle.card_rules.specs.Keys.{keys_check, valid_check, ChecksKey};
ghost use Rattle.card_rules.specs.Lent.{KeysFit};
ghost use Rattle.card_rules.specs.Parts.{as_keys};

use card_rules::keys::Keys;
use frames::read::read_frame;
use kinds::{Expected, Kind};
use readers::read;
use refusals::{Buffer, Reason, Refusal, refuse};

// Buffers 1, 2, 3; n is the system's.
pub fn check_keys(keys: &Keys) -> Result<(), Refusal>
    ensures { means result ≡ keys_check (as_keys keys.now) }
{
    let n = read(Kind::System, keys.system)?.first;
    read_frame(Kind::Public, Expected::of_places(n), keys.public)?;
    read_frame(Kind::Secret, Expected::of_places(n), keys.secret)?;
    Ok(())
}

// KEY.
pub fn check_valid(keys: &Keys) -> Result<(), Refusal>
    requires { KeysFit (as_keys keys.now) }
    ensures { means result ≡ valid_check (as_keys keys.now) }
{
    match keys.matrix().key_fault(keys.vector(), keys.permutation()) {
        Some(row) => refuse(Reason::Key, Buffer::Secret, row),
        None => Ok(()),
    }
}

// The key check.
pub fn check_key(keys: &Keys) -> Result<(), Refusal>
    ensures { ChecksKey (as_keys keys.now) result }
{
    check_keys(keys)?;
    check_valid(keys)
}
