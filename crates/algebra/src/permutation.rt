// Permutations, and what they do to vectors.
ghost use Rattle.std.specs.Prelude.{◌≡◌, ◌≤◌, length};
ghost use Rattle.algebra.specs.Lists.{over};
ghost use Rattle.algebra.specs.Permutations.{longest, is_perm, IsPerm, permute, compose, unpermute};

use crate::LONGEST;

// Whether s is a permutation of its own places.
pub fn is_permutation(s: &[u8]) -> bool
    requires { length s.now ≤ longest }
    ensures { result ≡ is_perm (length s.now) s.now }
{
    let n = s.len();
    let mut seen = [false; LONGEST];
    for x in s {
        let k = usize::from(*x);
        if n <= k || seen[k] {
            return false;
        }
        seen[k] = true;
    }
    true
}

// Writes V_theta.
pub fn permute_into(v: &[u8], theta: &[u8], out: &mut [u8])
    requires { IsPerm (length theta.now) theta.now × (length v.now ≡ length theta.now) × (length theta.now ≤ length out.old) }
    ensures { out.new ≡ over (permute v.now theta.now) out.old }
{
    for (j, k) in theta.iter().enumerate() {
        out[j] = v[usize::from(*k)];
    }
}

// Writes the product sigma tau, which sends j to sigma[tau[j]].
pub fn compose_into(sigma: &[u8], tau: &[u8], out: &mut [u8])
    requires { IsPerm (length sigma.now) sigma.now × IsPerm (length tau.now) tau.now × (length sigma.now ≡ length tau.now) × (length tau.now ≤ length out.old) }
    ensures { out.new ≡ over (compose sigma.now tau.now) out.old }
{
    permute_into(sigma, tau, out);
}

// Writes the U with U[sigma[j]] = W[j].
pub fn unpermute_into(w: &[u8], sigma: &[u8], out: &mut [u8])
    requires { IsPerm (length sigma.now) sigma.now × (length w.now ≡ length sigma.now) × (length sigma.now ≤ length out.old) }
    ensures { out.new ≡ over (unpermute (length sigma.now) w.now sigma.now) out.old }
{
    for (k, x) in sigma.iter().zip(w) {
        out[usize::from(*k)] = *x;
    }
}
