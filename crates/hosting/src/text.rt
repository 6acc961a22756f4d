// The parts of a line.

// Standard output.
pub const STDOUT: i32 = 1;

pub fn say(words: &[u8]) {
    io::write_all(STDOUT, words);
}

pub fn say_number(x: usize) {
    io::print_decimal(STDOUT, x as u64);
}

pub fn say_hex(x: u8) {
    io::print_hex(STDOUT, u64::from(x), 2);
}

// The words and then the number.
pub fn say_with(words: &[u8], x: usize) {
    say(words);
    say_number(x);
}

// What makes an ordinal of a number: 1st, 2nd, 3rd, 4th, .. 11th, .. 21st, ..
fn ordinal_ending(x: usize) -> &'static [u8] {
    match (x / 10 % 10, x % 10) {
        (1, _) => b"th",
        (_, 1) => b"st",
        (_, 2) => b"nd",
        (_, 3) => b"rd",
        _ => b"th",
    }
}

pub fn say_ordinal(x: usize) {
    say_number(x);
    say(ordinal_ending(x));
}
