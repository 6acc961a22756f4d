// The stand-in: a round that passes, made with no key, of a challenge and a bit that are known beforehand.
#![tactic(auto)]

ghost use Rattle.std.specs.Prelude.{◌≡◌};
ghost use Rattle.refusals.specs.Told.{means};
ghost use Rattle.stand_in.specs.Standing.{lent_check, StandsIn};

use algebra::MODULUS;
use frames::read::read_frame;
use kinds::{AFTER_ONE, Expected, FIRST_NUMBER, Kind};
use readers::choices::check_choices;
use readers::{matrix_of, read};
use refusals::{Buffer, Reason, Refusal, refuse};
use round::Pair;
use sha256::DIGEST;
use stand_in_round::put_round;

// The numbers, the frames, and what is lent.
fn check_lent(c: usize, bit: usize, system: &[u8], key: &[u8], lent: &[u8]) -> Result<(), Refusal>
    ensures { means result ≡ lent_check c bit system.now key.now lent.now }
{
    if MODULUS as usize <= c || 2 <= bit {
        return refuse(Reason::Shape, Buffer::NoBuffer, 0);
    }
    read(Kind::System, system)?;
    let n = usize::from(system[FIRST_NUMBER]);
    read_frame(Kind::Public, Expected::of_places(n), key)?;
    check_choices(n, 1, lent)
}

// Writes the round that a challenge and a bit call for: commitment, W and permutation.
pub fn stand_in(
    c: usize,
    bit: usize,
    system: &[u8],
    key: &[u8],
    lent: &[u8],
    out: &mut [u8],
) -> Result<usize, Refusal>
    ensures { StandsIn c bit system.now key.now lent.now out.old result out.new }
{
    check_lent(c, bit, system, key, lent)?;
    let a = matrix_of(system);
    let need = DIGEST + a.n + a.n;
    if out.len() < need {
        return refuse(Reason::Room, Buffer::Output, need);
    }
    let x = Pair {
        vector: &lent[..a.n],
        permutation: &lent[a.n..],
    };
    put_round(&a, &key[AFTER_ONE..], c as u8, bit == 1, x, out);
    Ok(need)
}
