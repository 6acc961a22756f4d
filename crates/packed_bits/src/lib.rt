// Packed bits: the highest bit of a byte first.
#![tactic(auto)]

ghost use Rattle.std.specs.Prelude.{◌≡◌, ◌/◌, ◌≤◌, ◌<◌, length, take};
ghost use Rattle.algebra.specs.Lists.{over, offsets};
ghost use Rattle.packed_bits.specs.PackedBits.{bit_at, unused_clear};
ghost use Rattle.packed_bits.specs.Clearing.{packed_size, clear_low, cleared};

// Bit k.
#[tactic(auto, unfolding(crate::specs::PackedBits::bit_at))]
pub fn bit_at(bytes: &[u8], k: usize) -> bool
    requires { k / 8 < length bytes.now }
    ensures { result ≡ bit_at bytes.now k }
{
    (bytes[k / 8] >> (7 - k % 8)) % 2 == 1
}

// Whether no bit from N on is set.
pub fn unused_clear(bytes: &[u8], rounds: usize) -> bool
    requires { length bytes.now < offsets }
    ensures { result ≡ unused_clear rounds bytes.now }
{
    (rounds..8 * bytes.len()).all(|k| !bit_at(bytes, k))
}

// x without its lowest `spare` bits.
fn clear_low(x: u8, spare: usize) -> u8
    requires { spare < 8 }
    ensures { result ≡ clear_low spare x }
{
    (x >> spare) << spare
}

// Clears the unused low bits of the bytes of N rounds.
pub fn clear_unused(rounds: usize, bytes: &mut [u8])
    requires { (0 < rounds) × (rounds < 256) × (packed_size rounds ≤ length bytes.old) }
    ensures { bytes.new ≡ over (cleared rounds (take (packed_size rounds) bytes.old)) bytes.old }
{
    let size = (rounds + 7) / 8;
    let last = size - 1;
    bytes[last] = clear_low(bytes[last], 8 * size - rounds);
}
