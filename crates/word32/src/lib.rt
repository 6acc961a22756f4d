// Operations on words of 32 bits: FIPS 180-4, sections 3.1 and 3.2, and the six functions of section 4.1.2.
#![tactic(auto)]

ghost use Rattle.std.specs.Prelude.{◌≡◌, ◌+◌, ◌≤◌, length};
ghost use Rattle.word32.specs.Operations.{word_at, ◌⊞◌, Ch, Maj, Σ0, Σ1, σ0, σ1};

// The word of the four bytes from place `at` on.
#[tactic(auto, unfolding(crate::specs::Operations::word_at))]
pub fn word_at(s: &[u8], at: usize) -> u32
    requires { at + 4 ≤ length s.now }
    ensures { result ≡ word_at s.now at }
{
    u32::from_be_bytes([s[at], s[at + 1], s[at + 2], s[at + 3]])
}

// Addition modulo 2^32.
pub fn plus(x: u32, y: u32) -> u32
    ensures { result ≡ x ⊞ y }
{
    x.wrapping_add(y)
}

// Ch, by an operation fewer than the standard writes it with: z's bits, and y's where x has 1.
pub fn ch(x: u32, y: u32, z: u32) -> u32
    ensures { result ≡ Ch x y z }
{
    z ^ (x & (y ^ z))
}

// Maj
#[tactic(auto, unfolding(crate::specs::Operations::Maj))]
pub fn maj(x: u32, y: u32, z: u32) -> u32
    ensures { result ≡ Maj x y z }
{
    (x & y) ^ (x & z) ^ (y & z)
}

// Σ0
pub fn big_sigma_0(x: u32) -> u32
    ensures { result ≡ Σ0 x }
{
    x.rotate_right(2) ^ x.rotate_right(13) ^ x.rotate_right(22)
}

// Σ1
pub fn big_sigma_1(x: u32) -> u32
    ensures { result ≡ Σ1 x }
{
    x.rotate_right(6) ^ x.rotate_right(11) ^ x.rotate_right(25)
}

// σ0
pub fn small_sigma_0(x: u32) -> u32
    ensures { result ≡ σ0 x }
{
    x.rotate_right(7) ^ x.rotate_right(18) ^ (x >> 3)
}

// σ1
pub fn small_sigma_1(x: u32) -> u32
    ensures { result ≡ σ1 x }
{
    x.rotate_right(17) ^ x.rotate_right(19) ^ (x >> 10)
}
