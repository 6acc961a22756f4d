// Why a call is refused, as one sentence. `bytes` is the buffer at fault; for STAGE it is the record.
ghost use Rattle.std.specs.Prelude.{◌<◌};

use crate::name::{buffer_name, stage_name};
use frames::read::count_of;
use hosting::bytes::byte_of;
use hosting::text::{say, say_number, say_ordinal, say_with};
use kinds::{AFTER_ONE, AFTER_TWO, Kind};
use refusals::{Buffer, Reason, Refusal};

// The kind of the frame in a buffer.
fn kind_of(buffer: Buffer) -> Option<Kind> {
    match buffer {
        Buffer::System => Some(Kind::System),
        Buffer::Public => Some(Kind::Public),
        Buffer::Secret => Some(Kind::Secret),
        Buffer::Commitments => Some(Kind::Commitments),
        Buffer::Challenges => Some(Kind::Challenges),
        Buffer::Answers => Some(Kind::Answers),
        Buffer::Bits => Some(Kind::Bits),
        Buffer::Openings => Some(Kind::Openings),
        Buffer::NoBuffer | Buffer::Choices | Buffer::Random | Buffer::Output => None,
    }
}

fn say_size(buffer: Buffer, bytes: &[u8]) {
    say_with(b", and there are ", bytes.len());
    say(b" in ");
    say(buffer_name(buffer));
}

// SHORT and LONG.
fn say_count(buffer: Buffer, bytes: &[u8]) {
    if bytes.len() < 4 {
        say(b"a frame has at least 4 bytes");
    } else {
        say_with(b"the count calls for ", count_of(bytes) + 2);
        say(b" bytes");
    }
    say_size(buffer, bytes);
}

fn say_version(buffer: Buffer, bytes: &[u8]) {
    say_with(b"version 1 is read, and ", usize::from(byte_of(bytes, 2)));
    say(b" is in ");
    say(buffer_name(buffer));
}

fn say_kind(buffer: Buffer, bytes: &[u8]) {
    let number = kind_of(buffer).map_or(buffer.number().saturating_sub(1), |kind| kind.number());
    say_with(b"kind ", usize::from(number));
    say_with(b" is called for, and ", usize::from(byte_of(bytes, 3)));
    say(b" is in the file of ");
    say(buffer_name(buffer));
}

fn say_shape(buffer: Buffer, bytes: &[u8]) {
    match buffer {
        Buffer::NoBuffer => say(
            b"a number is out of its limits: n is 2 to 64, m 1 to n-1, rounds are 1 to 64, a challenge is 0 to 250, a bit 0 or 1",
        ),
        Buffer::Choices => {
            say(b"2 n bytes are called for in each round");
            say_size(buffer, bytes);
        }
        _ => {
            say(
                b"the numbers, the length or the unused bits are not what the kind, the other files and the record call for in ",
            );
            say(buffer_name(buffer));
        }
    }
}

// Where the residues start in a frame, by its buffer.
fn residues_at(buffer: Buffer) -> usize
    ensures { 0 < result }
{
    match buffer {
        Buffer::System | Buffer::Answers => AFTER_TWO,
        _ => AFTER_ONE,
    }
}

// Which residue of a frame stands at the place, counted from 1.
fn residue_at(buffer: Buffer, place: usize) -> usize {
    place.saturating_sub(residues_at(buffer) - 1)
}

fn say_value(buffer: Buffer, place: usize, bytes: &[u8]) {
    say(b"the ");
    if buffer == Buffer::Choices {
        say_with(b"byte at place ", place);
    } else {
        say_ordinal(residue_at(buffer, place));
        say(b" residue");
    }
    say(b" of ");
    say(buffer_name(buffer));
    say_with(b" is ", usize::from(byte_of(bytes, place)));
    say(b"; residues are 0 to 250");
}

fn say_permutation(buffer: Buffer, place: usize) {
    say(b"no permutation, each of 0 to n-1 once, starts at place ");
    say_number(place);
    say(b" of ");
    say(buffer_name(buffer));
}

fn say_key(row: usize) {
    say_with(b"the secret key is none of this public key: row ", row);
    say(b" of A V_pi is not zero");
}

fn say_stage(record: &[u8]) {
    say(b"the record, ");
    say(stage_name(byte_of(record, 0)));
    say(b", is not one that this call goes on from with this system");
}

fn say_round(round: usize, words: &[u8]) {
    say_with(b"round ", round);
    say(words);
}

pub fn say_reason(x: Refusal, bytes: &[u8]) {
    let buffer = x.buffer;
    let place = x.place;
    match x.reason {
        Reason::Short | Reason::Long => say_count(buffer, bytes),
        Reason::Version => say_version(buffer, bytes),
        Reason::Kind => say_kind(buffer, bytes),
        Reason::Shape => say_shape(buffer, bytes),
        Reason::Value => say_value(buffer, place, bytes),
        Reason::Perm => say_permutation(buffer, place),
        Reason::Key => say_key(place),
        Reason::Room => say_with(b"too little room: bytes needed are ", place),
        Reason::Draw => say_with(b"too few random bytes: lent were ", place),
        Reason::Stage => say_stage(bytes),
        Reason::Weak => say(
            b"grade 1 asks for 20 rounds, grade 2 for 31, and there is no other grade",
        ),
        Reason::First => say_round(place, b", of bit 0, does not open its commitment"),
        Reason::Second => say_round(place, b", of bit 1, does not open its commitment"),
        Reason::SelfCheck => say_round(place, b" does not pass the card's own check"),
    }
}
