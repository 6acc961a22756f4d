// Bytes below a limit, one after the other: residues where it is 251.
ghost use Rattle.std.specs.Prelude.{◌≡◌, ◌≤◌, length};
ghost use Rattle.random.specs.Drawings.{used_by, drawn_over, Enough};
ghost use Rattle.random.specs.Sequences.{some_below};

use crate::draw::draw_below;

// How far n of them take: nothing is written.
pub fn measure_below(limit: u32, n: usize, random: &[u8], at: usize) -> Option<usize>
    ensures { result ≡ used_by (some_below limit n random.now at) }
{
    let mut p = at;
    for _ in 0..n {
        (_, p) = draw_below(random, p, limit)?;
    }
    Some(p)
}

// Writes n of them, for which the bytes suffice: see measure_below.
pub fn write_below(limit: u32, n: usize, random: &[u8], at: usize, out: &mut [u8]) -> usize
    requires { Enough (some_below limit n random.now at) × (n ≤ length out.old) }
    ensures { (Some result ≡ used_by (some_below limit n random.now at)) × (out.new ≡ drawn_over (some_below limit n random.now at) out.old) }
{
    let mut p = at;
    for place in &mut out[..n] {
        (*place, p) = draw_below(random, p, limit).unwrap();
    }
    p
}
