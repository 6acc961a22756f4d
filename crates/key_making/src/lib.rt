// Key making: pi, then the start of X, of which the rest makes A X zero, and V with V[pi[j]] = X[j].
#![tactic(auto)]

ghost use Rattle.std.specs.Prelude.{◌≡◌, ◌++◌, ◌≤◌, length, take, drop};
ghost use Rattle.refusals.specs.Told.{fine};
ghost use Rattle.algebra.specs.Lists.{over};
ghost use Rattle.algebra.specs.Permutations.{longest};
ghost use Rattle.random.specs.Drawings.{used_by, drawn_over, Enough};
ghost use Rattle.kinds.specs.Kinds.{alone};
ghost use Rattle.frames.specs.Reading.{first_of, reading};
ghost use Rattle.writers.specs.Writing.{frame};
ghost use Rattle.random.specs.Sequences.{list_of};
ghost use Rattle.key_making.specs.Key.{public_key, draw_pair, draw_key, draw_key_for, key_size};
ghost use Rattle.draw_rules.specs.Telling.{Draws};

use algebra::permutation::unpermute_into;
use algebra::{LONGEST, MODULUS};
use draw::frame_size;
use kinds::Kind;
use matrices::Matrix;
use random::draw::{measure_permutation, write_permutation};
use random::sequence::{measure_below, write_below};
use readers::{matrix_of, read};
use refusals::{Buffer, Reason, Refusal, refuse};
use writers::put_frame;

// Makes a key for the system: kind 2 and then kind 3.
pub fn make_key(system: &[u8], random: &[u8], out: &mut [u8]) -> Result<usize, Refusal>
    ensures { Draws (reading Kind.System alone system.now) (key_size (first_of system.now)) (draw_key_for system.now random.now) random.now out.old result out.new }
{
    read(Kind::System, system)?;
    let a = matrix_of(system);
    draw_key(&a, random, out)
}

// Makes a key for a matrix.
fn draw_key(a: &Matrix, random: &[u8], out: &mut [u8]) -> Result<usize, Refusal>
    ensures { Draws fine (key_size a.now.n) (draw_key a.now.entries.now a.now.n a.now.m random.now) random.now out.old result out.new }
{
    let need = frame_size(Kind::Public, a.n) + frame_size(Kind::Secret, a.n);
    if out.len() < need {
        return refuse(Reason::Room, Buffer::Output, need);
    }
    match measure_pair(a.n, a.m, random) {
        None => refuse(Reason::Draw, Buffer::Random, random.len()),
        Some(used) => {
            write_key(a, random, out);
            Ok(used)
        }
    }
}

// How far pi and the start of X take: nothing is written.
fn measure_pair(n: usize, m: usize, random: &[u8]) -> Option<usize>
    requires { (m ≤ n) × (n ≤ longest) }
    ensures { result ≡ used_by (draw_pair n m random.now) }
{
    let p = measure_permutation(random, 0, n)?;
    measure_below(MODULUS, n - m, random, p)
}

// Writes a key, for which the bytes suffice.
fn write_key(a: &Matrix, random: &[u8], out: &mut [u8])
    requires { Enough (draw_pair a.now.n a.now.m random.now) × (key_size a.now.n ≤ length out.old) }
    ensures { out.new ≡ drawn_over (draw_key a.now.entries.now a.now.n a.now.m random.now) out.old }
{
    let n = a.n;
    let mut pi = [0u8; LONGEST];
    let mut v = [0u8; LONGEST];
    form_key(a, random, &mut pi, &mut v);
    put_key(n, &v[..n], &pi[..n], out);
}

// Forms pi and V in their rooms.
fn form_key(a: &Matrix, random: &[u8], pi: &mut [u8], v: &mut [u8])
    requires { Enough (draw_pair a.now.n a.now.m random.now) × (longest ≤ length pi.old) × (longest ≤ length v.old) }
    ensures { (pi.new ≡ over (take a.now.n (list_of (draw_pair a.now.n a.now.m random.now))) pi.old) × (v.new ≡ over (public_key a.now.entries.now a.now.n a.now.m (take a.now.n (list_of (draw_pair a.now.n a.now.m random.now))) (drop a.now.n (list_of (draw_pair a.now.n a.now.m random.now)))) v.old) }
{
    let n = a.n;
    let mut x = [0u8; LONGEST];
    let p = write_permutation(random, 0, n, pi);
    write_below(MODULUS, n - a.m, random, p, &mut x);
    a.complete(&mut x);
    unpermute_into(&x[..n], &pi[..n], v);
}

// Writes the two frames of a key, for which there is room.
fn put_key(n: usize, v: &[u8], pi: &[u8], out: &mut [u8])
    requires { (2 ≤ n) × (n ≤ longest) × (length v.now ≡ n) × (length pi.now ≡ n) × (key_size n ≤ length out.old) }
    ensures { out.new ≡ over (frame Kind.Public n 0 v.now ++ frame Kind.Secret n 0 pi.now) out.old }
{
    put_frame(Kind::Public, n, 0, v, out);
    let second = frame_size(Kind::Public, n);
    put_frame(Kind::Secret, n, 0, pi, &mut out[second..]);
}
