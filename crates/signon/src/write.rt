// Writers: each answers how many bytes it wrote.
ghost use Rattle.signon.specs.Calls.{WriteForC};

use card_for_c::Answer;
use card_for_c::answers::of_count;
use kinds::Kind;
use writers::write_frame;

// A frame of any kind.
fn write_for_c(kind: Kind, a: usize, b: usize, plain: &[u8], out: &mut [u8]) -> Answer
    ensures { WriteForC kind a b plain.now out.old result out.new }
{
    of_count(write_frame(kind, a, b, plain, out))
}

#[unsafe(no_mangle)]
pub extern "C" fn signon_write_system(n: usize, m: usize, plain: &[u8], out: &mut [u8]) -> Answer
    ensures { WriteForC Kind.System n m plain.now out.old result out.new }
{
    write_for_c(Kind::System, n, m, plain, out)
}

#[unsafe(no_mangle)]
pub extern "C" fn signon_write_public_key(n: usize, plain: &[u8], out: &mut [u8]) -> Answer
    ensures { WriteForC Kind.Public n 0 plain.now out.old result out.new }
{
    write_for_c(Kind::Public, n, 0, plain, out)
}

#[unsafe(no_mangle)]
pub extern "C" fn signon_write_secret_key(n: usize, plain: &[u8], out: &mut [u8]) -> Answer
    ensures { WriteForC Kind.Secret n 0 plain.now out.old result out.new }
{
    write_for_c(Kind::Secret, n, 0, plain, out)
}

#[unsafe(no_mangle)]
pub extern "C" fn signon_write_commitments(rounds: usize, plain: &[u8], out: &mut [u8]) -> Answer
    ensures { WriteForC Kind.Commitments rounds 0 plain.now out.old result out.new }
{
    write_for_c(Kind::Commitments, rounds, 0, plain, out)
}

#[unsafe(no_mangle)]
pub extern "C" fn signon_write_challenges(rounds: usize, plain: &[u8], out: &mut [u8]) -> Answer
    ensures { WriteForC Kind.Challenges rounds 0 plain.now out.old result out.new }
{
    write_for_c(Kind::Challenges, rounds, 0, plain, out)
}

#[unsafe(no_mangle)]
pub extern "C" fn signon_write_first_answers(
    n: usize,
    rounds: usize,
    plain: &[u8],
    out: &mut [u8],
) -> Answer
    ensures { WriteForC Kind.Answers n rounds plain.now out.old result out.new }
{
    write_for_c(Kind::Answers, n, rounds, plain, out)
}

#[unsafe(no_mangle)]
pub extern "C" fn signon_write_bits(rounds: usize, plain: &[u8], out: &mut [u8]) -> Answer
    ensures { WriteForC Kind.Bits rounds 0 plain.now out.old result out.new }
{
    write_for_c(Kind::Bits, rounds, 0, plain, out)
}

#[unsafe(no_mangle)]
pub extern "C" fn signon_write_openings(
    n: usize,
    rounds: usize,
    plain: &[u8],
    out: &mut [u8],
) -> Answer
    ensures { WriteForC Kind.Openings n rounds plain.now out.old result out.new }
{
    write_for_c(Kind::Openings, n, rounds, plain, out)
}
