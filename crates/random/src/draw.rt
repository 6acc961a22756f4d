// Drawing from lent bytes. A drawing starts at the place `at` of them and answers the place after the last byte used, or None where they run out.
ghost use Rattle.std.specs.Prelude.{◌≡◌, ◌-◌, ◌≤◌, ◌<◌, length, take};
ghost use Rattle.algebra.specs.Lists.{over};
ghost use Rattle.algebra.specs.Permutations.{longest, identity};
ghost use Rattle.random.specs.Drawings.{largest_multiple, draw_below, shuffle, draw_permutation, used_by, drawn_over, Enough};

// The first byte below the limit, and the next place; a residue where the limit is 251.
pub fn draw_below(random: &[u8], at: usize, limit: u32) -> Option<(u8, usize)>
    ensures { result ≡ draw_below limit random.now at }
{
    let mut i = at;
    loop {
        if random.len() <= i {
            break None;
        }
        let x = random[i];
        i += 1;
        if (x as u32) < limit {
            break Some((x, i));
        }
    }
}

// A byte from which each of 0 to k - 1 comes as remainder by k equally often.
fn draw_for(random: &[u8], at: usize, k: usize) -> Option<(u8, usize)>
    requires { (0 < k) × (k ≤ longest) }
    ensures { result ≡ draw_below (largest_multiple k) random.now at }
{
    let whole = k as u32;
    draw_below(random, at, 256 / whole * whole)
}

// How far a permutation of n takes: nothing is written.
pub fn measure_permutation(random: &[u8], at: usize, n: usize) -> Option<usize>
    requires { n ≤ longest }
    ensures { result ≡ used_by (draw_permutation n random.now at) }
{
    let mut p = at;
    for i in (1..n).rev() {
        (_, p) = draw_for(random, p, i + 1)?;
    }
    Some(p)
}

// Writes 0, 1, .., n - 1.
fn write_identity(n: usize, out: &mut [u8])
    requires { (n ≤ longest) × (n ≤ length out.old) }
    ensures { out.new ≡ over (identity n) out.old }
{
    for (j, place) in out[..n].iter_mut().enumerate() {
        *place = j as u8;
    }
}

// Shuffles the first n of out, for which the bytes suffice.
fn shuffle_front(random: &[u8], at: usize, n: usize, out: &mut [u8]) -> usize
    requires { Enough (shuffle (n - 1) (take n out.old) random.now at) × (n ≤ longest) × (n ≤ length out.old) }
    ensures { (Some result ≡ used_by (shuffle (n - 1) (take n out.old) random.now at)) × (out.new ≡ drawn_over (shuffle (n - 1) (take n out.old) random.now at) out.old) }
{
    let mut p = at;
    for i in (1..n).rev() {
        let (x, next) = draw_for(random, p, i + 1).unwrap();
        out.swap(i, x as usize % (i + 1));
        p = next;
    }
    p
}

// Writes a permutation of n, for which the bytes suffice: see measure_permutation.
pub fn write_permutation(random: &[u8], at: usize, n: usize, out: &mut [u8]) -> usize
    requires { Enough (draw_permutation n random.now at) × (0 < n) × (n ≤ longest) × (n ≤ length out.old) }
    ensures { (Some result ≡ used_by (draw_permutation n random.now at)) × (out.new ≡ drawn_over (draw_permutation n random.now at) out.old) }
{
    write_identity(n, out);
    shuffle_front(random, at, n, out)
}

// Draws a permutation of n into out, or leaves out as it was.
pub fn draw_permutation(random: &[u8], at: usize, n: usize, out: &mut [u8]) -> Option<usize>
    requires { (0 < n) × (n ≤ longest) × (n ≤ length out.old) }
    ensures { (result ≡ used_by (draw_permutation n random.now at)) × (out.new ≡ drawn_over (draw_permutation n random.now at) out.old) }
{
    measure_permutation(random, at, n)?;
    Some(write_permutation(random, at, n, out))
}
