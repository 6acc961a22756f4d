// A place of a file, marked among the bytes around it.
use hosting::text::{say, say_hex, say_with};

// How many bytes a row has.
const ROW: usize = 16;

fn say_byte(x: u8, marked: bool) {
    if marked {
        say(b" [");
        say_hex(x);
        say(b"]");
        return;
    }
    say(b" ");
    say_hex(x);
}

// The row of bytes that has the place, which stands in brackets.
pub fn show_place(bytes: &[u8], place: usize) {
    let start = place - place % ROW;
    say_with(b"  from place ", start);
    say(b":");
    for (i, x) in bytes.iter().enumerate().skip(start).take(ROW) {
        say_byte(*x, i == place);
    }
    say(b"\n");
}
