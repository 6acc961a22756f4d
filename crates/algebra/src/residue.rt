// Residues, and vectors of them.
ghost use Rattle.std.specs.Prelude.{◌≡◌, ◌≤◌, ◌<◌, length};
ghost use Rattle.algebra.specs.Lists.{over};
ghost use Rattle.algebra.specs.Residues.{modulus, negative, plus_times, add_scaled, sub_scaled};

use crate::MODULUS;

// -x, which is 0 where x is 0.
#[tactic(auto, unfolding(crate::specs::Residues::negative))]
pub fn negative(x: u8) -> u8
    requires { x < modulus }
    ensures { result ≡ negative modulus x }
{
    ((MODULUS - u32::from(x)) % MODULUS) as u8
}

// r + c·v.
#[tactic(auto, using(crate::proofs::Sums::byte_mul))]
fn plus_times(r: u8, c: u8, v: u8) -> u8
    ensures { result ≡ plus_times modulus c r v }
{
    ((u32::from(r) + u32::from(c) * u32::from(v)) % MODULUS) as u8
}

// Writes R + c·V.
pub fn add_scaled_into(r: &[u8], c: u8, v: &[u8], out: &mut [u8])
    requires { (length r.now ≡ length v.now) × (length r.now ≤ length out.old) }
    ensures { out.new ≡ over (add_scaled modulus r.now c v.now) out.old }
{
    for (j, x) in r.iter().enumerate() {
        out[j] = plus_times(*x, c, v[j]);
    }
}

// Writes W - c·V.
#[tactic(auto, unfolding(crate::specs::Residues::sub_scaled))]
pub fn sub_scaled_into(w: &[u8], c: u8, v: &[u8], out: &mut [u8])
    requires { (c < modulus) × (length w.now ≡ length v.now) × (length w.now ≤ length out.old) }
    ensures { out.new ≡ over (sub_scaled modulus w.now c v.now) out.old }
{
    add_scaled_into(w, negative(c), v, out);
}
