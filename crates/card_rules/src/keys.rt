// The frames of system, public key and secret key, which the card's calls are lent together, and what stands in them.
ghost use Rattle.std.specs.Prelude.{◌≡◌};
ghost use Rattle.scheme.specs.Round.{as_system};
ghost use Rattle.card_rules.specs.Keys.{places_of, rows_of, public_of, secret_of};
ghost use Rattle.card_rules.specs.Lent.{KeysFit, matrix_of};
ghost use Rattle.card_rules.specs.Parts.{as_keys};

use kinds::AFTER_ONE;
use matrices::Matrix;
use readers::matrix_of;

// The frames of kinds 1 to 3, as they are lent: any bytes.
#[derive(Clone, Copy)]
pub struct Keys<'a> {
    pub system: &'a [u8],
    pub public: &'a [u8],
    pub secret: &'a [u8],
}

impl<'a> Keys<'a> {
    // The matrix A of the system.
    pub fn matrix(&self) -> Matrix
        requires { KeysFit (as_keys self.now) }
        ensures system { as_system result ≡ matrix_of (as_keys self.now) }
        ensures places { result.n ≡ places_of (as_keys self.now) }
        ensures rows { result.m ≡ rows_of (as_keys self.now) }
    {
        matrix_of(self.system)
    }

    // The vector V.
    pub fn vector(&self) -> &[u8]
        requires { KeysFit (as_keys self.now) }
        ensures { result.now ≡ public_of (as_keys self.now) }
    {
        &self.public[AFTER_ONE..]
    }

    // The permutation pi.
    pub fn permutation(&self) -> &[u8]
        requires { KeysFit (as_keys self.now) }
        ensures { result.now ≡ secret_of (as_keys self.now) }
    {
        &self.secret[AFTER_ONE..]
    }
}
