// The matrix A = [A' | I]: m rows, n columns, a the entries of A' row by row.
#![tactic(auto)]

ghost use Rattle.std.specs.Prelude.{◌≡◌, ◌+◌, ◌-◌, ◌≤◌, ◌<◌, length, take, unwrap_or, IfSome};
ghost use Rattle.algebra.specs.Lists.{over, first_from};
ghost use Rattle.algebra.specs.Residues.{modulus};
ghost use Rattle.algebra.specs.Permutations.{longest, IsPerm};
ghost use Rattle.matrices.specs.Matrices.{row_times, row_of, product, nonzero_row, key_fault, SystemFits};
ghost use Rattle.matrices.specs.Solving.{completed};

use algebra::permutation::permute_into;
use algebra::residue::negative;
use algebra::{LONGEST, MODULUS};

// Row i of A X, from that row of A'. The sum of at most 64 products of bytes is reduced once.
pub fn row_times(row: &[u8], x: &[u8], i: usize) -> u8
    requires { (length row.now < longest) × (length row.now + i < length x.now) }
    ensures { result ≡ row_times modulus row.now x.now i }
{
    let d = row.len();
    let mut sum: u32 = 0;
    for (a, y) in row.iter().zip(x) {
        sum += u32::from(*a) * u32::from(*y);
    }
    sum += u32::from(x[d + i]);
    (sum % MODULUS) as u8
}

// The matrix A = [A' | I] of m rows and n columns: the entries of A', row by row, n - m to a row.
#[derive(Clone, Copy)]
pub struct Matrix<'a> {
    pub entries: &'a [u8],
    pub n: usize,
    pub m: usize,
    pub ghost fits: { SystemFits entries.now n m },
}

impl<'a> Matrix<'a> {
    // Row i of A': here alone stands where it lies.
    fn row(&self, i: usize) -> &[u8]
        requires { i < self.now.m }
        ensures cut { result.now ≡ row_of self.now.entries.now self.now.n self.now.m i }
        ensures size { length result.now ≡ self.now.n - self.now.m }
    {
        let d = self.n - self.m;
        let start = i * d;
        let end = start + d;
        &self.entries[start..end]
    }

    // Writes A X.
    pub fn product_into(&self, x: &[u8], out: &mut [u8])
        requires { (length x.now ≡ self.now.n) × (self.now.m ≤ length out.old) }
        ensures { out.new ≡ over (product modulus self.now.entries.now self.now.n self.now.m x.now) out.old }
    {
        for i in 0..self.m {
            out[i] = row_times(self.row(i), x, i);
        }
    }

    // Completes X after its first n - m entries, so that A X is zero. The entry to come is 0 while its row is summed.
    pub fn complete(&self, x: &mut [u8])
        requires { self.now.n ≤ length x.old }
        ensures { x.new ≡ over (completed modulus self.now.entries.now self.now.n self.now.m (take (self.now.n - self.now.m) x.old)) x.old }
    {
        let d = self.n - self.m;
        for i in 0..self.m {
            let k = d + i;
            x[k] = 0;
            x[k] = negative(row_times(self.row(i), &x[..self.n], i));
        }
    }

    // The first row of A X that is not zero.
    fn first_nonzero(&self, x: &[u8]) -> Option<usize>
        requires { length x.now ≡ self.now.n }
        ensures fault { unwrap_or result self.now.m ≡ first_from self.now.m 0 (nonzero_row modulus self.now.entries.now self.now.n self.now.m x.now) }
        ensures below { IfSome result (λ i. i < self.now.m) }
    {
        (0..self.m).find(|i| row_times(self.row(*i), x, *i) != 0)
    }

    // The first row of A V_pi that is not zero. The key pi is valid for V where there is none.
    pub fn key_fault(&self, v: &[u8], pi: &[u8]) -> Option<usize>
        requires { IsPerm (length pi.now) pi.now × (length pi.now ≡ self.now.n) × (length v.now ≡ self.now.n) }
        ensures fault { unwrap_or result self.now.m ≡ key_fault modulus self.now.entries.now self.now.n self.now.m v.now pi.now }
        ensures below { IfSome result (λ i. i < self.now.m) }
    {
        let mut room = [0u8; LONGEST];
        permute_into(v, pi, &mut room);
        self.first_nonzero(&room[..self.n])
    }
}
