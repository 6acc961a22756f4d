// What refusals, buffers and stages are called.
use card_rules::session::{ANSWERED, CLOSED, COMMITTED, IDLE};
use refusals::{Buffer, Reason};

// Document 01's name of a refusal.
pub fn name_of(reason: Reason) -> &'static [u8] {
    match reason {
        Reason::Short => b"SHORT",
        Reason::Long => b"LONG",
        Reason::Version => b"VERSION",
        Reason::Kind => b"KIND",
        Reason::Shape => b"SHAPE",
        Reason::Value => b"VALUE",
        Reason::Perm => b"PERM",
        Reason::Key => b"KEY",
        Reason::Room => b"ROOM",
        Reason::Draw => b"DRAW",
        Reason::Stage => b"STAGE",
        Reason::Weak => b"WEAK",
        Reason::First => b"FIRST",
        Reason::Second => b"SECOND",
        Reason::SelfCheck => b"SELF",
    }
}

pub fn buffer_name(buffer: Buffer) -> &'static [u8] {
    match buffer {
        Buffer::System => b"the system",
        Buffer::Public => b"the public key",
        Buffer::Secret => b"the secret key",
        Buffer::Choices => b"the choices",
        Buffer::Commitments => b"the commitments",
        Buffer::Challenges => b"the challenges",
        Buffer::Answers => b"the first answers",
        Buffer::Bits => b"the bits",
        Buffer::Openings => b"the openings",
        Buffer::Random => b"the random bytes",
        Buffer::NoBuffer | Buffer::Output => b"the output",
    }
}

// Any byte can stand for the stage of a record.
pub fn stage_name(stage: u8) -> &'static [u8] {
    match stage {
        IDLE => b"idle",
        COMMITTED => b"committed",
        ANSWERED => b"answered",
        CLOSED => b"closed",
        _ => b"none of idle, committed, answered and closed",
    }
}
