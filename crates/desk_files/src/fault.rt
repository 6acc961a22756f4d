// Why the system refused a file, as a line on standard error.
ghost use Rattle.std.specs.Prelude.{◌≤◌};

use std::fmt;
use std::fmt::Write;
use std::io::Error;
use std::str::from_utf8;

const STDERR: i32 = 2;

// No words of the system are so many bytes.
const ROOM: usize = 128;

// What an error says, as far as there is room.
#[derive(Drop)]
struct Message {
    bytes: [u8; ROOM],
    size: usize,
    ghost within: { size ≤ 128 },
}

impl Message {
    fn put(&mut self, x: u8) {
        if self.size < ROOM {
            self.bytes[self.size] = x;
            self.size += 1;
        }
    }

    fn words(&self) -> &[u8] {
        &self.bytes[..self.size]
    }
}

impl Write for Message {
    fn write_str(&mut self, s: &str) -> fmt::Result {
        for x in s.as_bytes() {
            self.put(*x);
        }
        Ok(())
    }
}

// The words in front of the system's number of the error.
fn without_number(words: &[u8]) -> &[u8] {
    if let Ok(text) = from_utf8(words)
        && let Some((front, _)) = text.split_once(" (os error ")
    {
        return front.as_bytes();
    }
    words
}

// What was asked for, a colon, and what the error says.
pub fn tell_fault(path: &[u8], error: Error) {
    let mut message = Message {
        bytes: [0; ROOM],
        size: 0,
    };
    let _ = write!(message, "{error}");
    io::write_all(STDERR, path);
    io::write_all(STDERR, b": ");
    io::write_all(STDERR, without_number(message.words()));
    io::write_all(STDERR, b"\n");
}
