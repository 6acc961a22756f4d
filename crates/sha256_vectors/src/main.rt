// Prints the digests of many messages, a line each: the length, the answer of the hash call, the digest in hex, and whether every cut of the message into pieces gives the same.
// tests/sha256_vectors.py makes the same lines by an independent hash.
#![tactic(auto)]

ghost use Rattle.std.specs.Prelude.{◌≡◌, ◌≤◌, length};

use refusals::Refusal;
use sha256::{DIGEST, shown};

fn print(text: &[u8]) {
    io::write_all(1, text);
}

fn print_number(n: usize) {
    io::print_decimal(1, n as u64);
}

fn print_refused(x: Refusal) {
    print(b" refused ");
    print_number(usize::from(x.reason.number()));
    print(b" ");
    print_number(usize::from(x.buffer.number()));
    print(b" ");
    print_number(x.place);
    print(b" ");
}

fn print_digest(digest: [u8; DIGEST]) {
    for b in digest {
        io::print_hex(1, u64::from(b), 2);
    }
}

// Whether the message has that digest in two pieces, in three, and so on to `most`, or nearly so many.
fn same_in_pieces(message: &[u8], digest: [u8; DIGEST], most: usize) -> bool
    requires { most ≤ 64 }
{
    (2..=most).all(|pieces| {
        shown(sha256_pieces::in_pieces(message, message.len() / pieces + 1)) == digest
    })
}

fn print_line(message: &[u8], most: usize)
    requires { most ≤ 64 }
{
    print_number(message.len());
    let hashed = sha256::hash(message);
    match hashed {
        Ok(_) => print(b" fine "),
        Err(x) => print_refused(x),
    }
    let digest = shown(hashed);
    print_digest(digest);
    if same_in_pieces(message, digest, most) {
        print(b" same\n");
    } else {
        print(b" differs\n");
    }
}

// A message of n equal bytes.
fn print_equal(byte: u8, n: usize)
    requires { n ≤ 1005 }
{
    let room = [byte; 1005];
    print_line(&room[..n], 16);
}

// A message of n bytes, of which byte i is (31 i + n) modulo 251.
fn print_mixed(room: &mut [u8], n: usize, most: usize)
    requires { (n ≤ length room.old) × (length room.old ≡ 65536) × (most ≤ 64) }
{
    for (i, byte) in room[..n].iter_mut().enumerate() {
        *byte = ((31 * i + n) % 251) as u8;
    }
    print_line(&room[..n], most);
}

// The standard's examples that fit, and those that its authors added to them.
fn print_examples() {
    print_line(b"abc", 16);
    print_line(
        b"abcdbcdecdefdefgefghfghighijhijkijkljklmklmnlmnomnopnopq",
        16,
    );
    print_line(b"\xc9\x8c\x8e\x55", 16);
    print_equal(0xbd, 1);
    print_equal(0, 55);
    print_equal(0, 56);
    print_equal(0, 57);
    print_equal(0, 64);
    print_equal(0, 1000);
    print_equal(0x41, 1000);
    print_equal(0x55, 1005);
}

// Every length from 0 to 300.
fn print_short(room: &mut [u8])
    requires { length room.old ≡ 65536 }
{
    for n in 0..=300 {
        print_mixed(room, n, 16);
    }
}

// The lengths around each multiple of 64 from 320 on, up to one byte too many.
fn print_long(room: &mut [u8])
    requires { length room.old ≡ 65536 }
{
    for n in (320..65536).step_by(64) {
        print_mixed(room, n - 1, 4);
        print_mixed(room, n, 4);
        print_mixed(room, n + 1, 4);
    }
    print_mixed(room, 65535, 4);
    print_mixed(room, 65536, 4);
}

fn main() {
    print_examples();
    let mut room = io::large_buffer();
    print_short(&mut room);
    print_long(&mut room);
}
