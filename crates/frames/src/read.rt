// Readers: the header, then SHAPE, then the bytes in order.
ghost use Rattle.std.specs.Prelude.{◌≡◌, ◌≤◌, ◌<◌, length};
ghost use Rattle.refusals.specs.Told.{means, demand};
ghost use Rattle.refusals.specs.Number.{SHAPE};
ghost use Rattle.algebra.specs.Lists.{offsets};
ghost use Rattle.kinds.specs.Kinds.{Modest, table};
ghost use Rattle.frames.specs.Reading.{count_of, header, second_of, shape, Reads};

use bodies::{check_content, spare_clear};
use kinds::{AFTER_TWO, Expected, FIRST_NUMBER, Kind, SECOND_NUMBER};
use refusals::{Reason, Refusal, refuse};

// What is read of a frame: the numbers (the second is 0 where its kind has one) and where the rest of the body starts.
#[derive(Clone, Copy)]
pub struct Frame {
    pub first: usize,
    pub second: usize,
    pub start: usize,
}

// The count of the first two bytes.
pub fn count_of(s: &[u8]) -> usize
    requires { 2 ≤ length s.now }
    ensures { (result ≡ count_of s.now) × (result < 65536) }
{
    usize::from(u16::from_be_bytes([s[0], s[1]]))
}

// SHORT, LONG, VERSION, KIND.
fn check_header(kind: Kind, s: &[u8]) -> Result<(), Refusal>
    ensures { means result ≡ header kind s.now }
{
    let buffer = kind.buffer();
    if s.len() < 4 {
        return refuse(Reason::Short, buffer, 0);
    }
    let whole = count_of(s) + 2;
    if s.len() < whole {
        return refuse(Reason::Short, buffer, 0);
    }
    if whole < s.len() {
        return refuse(Reason::Long, buffer, 0);
    }
    if s[2] != kind.version() {
        return refuse(Reason::Version, buffer, 2);
    }
    if s[3] != kind.number() {
        return refuse(Reason::Kind, buffer, 3);
    }
    Ok(())
}

// The second number, where the kind has one.
fn second_of(kind: Kind, s: &[u8]) -> usize
    requires { (table kind).start ≤ length s.now }
    ensures { (result ≡ second_of kind s.now) × (result < 256) }
{
    if kind.start() == AFTER_TWO {
        return usize::from(s[SECOND_NUMBER]);
    }
    0
}

// Whether the numbers and the length are as tabled, and no unused bit is set.
fn shape_fits(kind: Kind, expected: Expected, s: &[u8]) -> bool
    requires { length s.now < offsets }
    ensures { result ≡ shape kind expected s.now }
{
    let start = kind.start();
    if s.len() < start {
        return false;
    }
    let first = usize::from(s[FIRST_NUMBER]);
    let second = second_of(kind, s);
    if !kind.numbers_fit(expected, first, second) {
        return false;
    }
    if s.len() != start + kind.size(first, second) {
        return false;
    }
    spare_clear(kind, first, &s[start..])
}

// A frame of any kind, with what is asked of n and N.
pub fn read_frame(kind: Kind, expected: Expected, s: &[u8]) -> Result<Frame, Refusal>
    requires { Modest expected }
    ensures { Reads kind expected s.now result }
{
    check_header(kind, s)?;
    check_shape(kind, expected, s)?;
    let start = kind.start();
    let first = usize::from(s[FIRST_NUMBER]);
    let second = second_of(kind, s);
    check_content(kind, first, second, start, &s[start..])?;
    Ok(Frame {
        first,
        second,
        start,
    })
}

// SHAPE.
fn check_shape(kind: Kind, expected: Expected, s: &[u8]) -> Result<(), Refusal>
    requires { length s.now < offsets }
    ensures { means result ≡ demand (shape kind expected s.now) SHAPE (table kind).buffer 4 }
{
    if shape_fits(kind, expected, s) {
        return Ok(());
    }
    refuse(Reason::Shape, kind.buffer(), 4)
}
