// The values of a frame in rows.
use hosting::bytes::{behind, front};
use hosting::text::{say, say_hex, say_with};
use kinds::PAIR;
use packed_bits::bit_at;
use sha256::DIGEST;

// In four columns.
fn say_value(x: u8) {
    if x < 10 {
        say(b"  ");
    } else if x < 100 {
        say(b" ");
    }
    say_with(b" ", usize::from(x));
}

// The head of a row; the only row of a frame has no number.
fn start_row(label: &[u8], row: usize, only: bool) {
    say(b"  ");
    say(label);
    if !only {
        say_with(b" ", row);
    }
    say(b":");
}

// Rows of `width` values; none where that is 0.
pub fn say_rows(label: &[u8], width: usize, bytes: &[u8]) {
    if width == 0 {
        return;
    }
    let only = bytes.len() <= width;
    for (row, values) in bytes.chunks(width).enumerate() {
        start_row(label, row, only);
        for x in values {
            say_value(*x);
        }
        say(b"\n");
    }
}

fn say_digest(bytes: &[u8]) {
    for x in bytes {
        say_hex(*x);
    }
}

// A row for each round.
pub fn say_digests(bytes: &[u8]) {
    for (round, pair) in bytes.chunks(PAIR).enumerate() {
        say_with(b"  round ", round);
        say(b": C0 ");
        say_digest(front(pair, DIGEST));
        say(b" C1 ");
        say_digest(behind(pair, DIGEST));
        say(b"\n");
    }
}

// Bit k; 0 where there is none.
fn bit_of(bytes: &[u8], k: usize) -> u8 {
    u8::from(k / 8 < bytes.len() && bit_at(bytes, k))
}

// N bits as one row.
pub fn say_bits(rounds: usize, bytes: &[u8]) {
    say(b"  bits:");
    for k in 0..rounds {
        say_value(bit_of(bytes, k));
    }
    say(b"\n");
}
