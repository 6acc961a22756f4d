// The words of a line.
use frames::read::Frame;
use hosting::text::{STDOUT, say, say_hex, say_with};
use refusals::Refusal;

// The most bytes that are printed one by one.
const SHOWN_WHOLE: usize = 40;

// The greatest prime below 2^16.
const ADLER_MODULUS: u32 = 65521;

// What a call answers that is not refused.
pub trait Answer {
    fn tell(self);
}

impl Answer for () {
    fn tell(self) {}
}

impl Answer for usize {
    fn tell(self) {
        tell_number(self);
    }
}

impl Answer for Frame {
    fn tell(self) {
        tell_number(self.first);
        tell_number(self.second);
        tell_number(self.start);
    }
}

pub fn tell_number(x: usize) {
    say_with(b" ", x);
}

pub fn tell_done() {
    say(b" done");
}

fn tell_refusal(x: Refusal) {
    say(b" refused");
    tell_number(usize::from(x.reason.number()));
    tell_number(usize::from(x.buffer.number()));
    tell_number(x.place);
}

// `done` and what was answered, or the refusal.
pub fn tell(told: Result<impl Answer, Refusal>) {
    match told {
        Ok(answer) => {
            tell_done();
            answer.tell();
        }
        Err(x) => tell_refusal(x),
    }
}

fn tell_hex(bytes: &[u8]) {
    say(b" =");
    for x in bytes {
        say_hex(*x);
    }
}

// RFC 1950's checksum.
fn adler_32(bytes: &[u8]) -> u32 {
    let mut sum: u32 = 1;
    let mut sums: u32 = 0;
    for x in bytes {
        sum = (sum + u32::from(*x)) % ADLER_MODULUS;
        sums = (sums + sum) % ADLER_MODULUS;
    }
    (sums << 16) | sum
}

// A buffer as it is after the call.
pub fn tell_bytes(bytes: &[u8]) {
    if bytes.len() <= SHOWN_WHOLE {
        tell_hex(bytes);
        return;
    }
    say(b" ~");
    io::print_hex(STDOUT, u64::from(adler_32(bytes)), 8);
}
