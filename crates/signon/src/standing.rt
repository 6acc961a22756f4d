// The stand-in.
ghost use Rattle.signon.specs.Calls.{StandInForC};

use card_for_c::Answer;
use card_for_c::answers::of_count;
use stand_in::stand_in;

// Writes the round that a challenge and a bit call for, of the lent vector and permutation: commitment, W and permutation.
#[unsafe(no_mangle)]
pub extern "C" fn signon_stand_in(
    challenge: usize,
    bit: usize,
    system: &[u8],
    public: &[u8],
    lent: &[u8],
    out: &mut [u8],
) -> Answer
    ensures { StandInForC challenge bit system.now public.now lent.now out.old result out.new }
{
    of_count(stand_in(challenge, bit, system, public, lent, out))
}
