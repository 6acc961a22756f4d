// What a command takes.
ghost use Rattle.std.specs.Prelude.{◌≤◌, length};

use crate::command::Command;
use refusals::Buffer;

// What an argument is.
#[derive(Clone, Copy)]
pub enum Role {
    Number,
    // The record.
    Record,
    // The record, idle where its file is missing.
    NewRecord,
    // Random bytes that are read ahead.
    Random,
    // Random bytes that the command reads as it needs them.
    Source,
    // The file of a buffer; of no buffer, any file.
    File(Buffer),
    // A file that the command writes.
    Output,
}

// The arguments of a command, in order: eight at the most.
pub fn roles(command: Command) -> &'static [Role]
    ensures { length result.now ≤ 8 }
{
    match command {
        Command::System => &[Role::Number, Role::Number, Role::Random, Role::Output],
        Command::Key => &[
            Role::File(Buffer::System),
            Role::Source,
            Role::Output,
            Role::Output,
        ],
        Command::CheckKey => &[
            Role::File(Buffer::System),
            Role::File(Buffer::Public),
            Role::File(Buffer::Secret),
        ],
        Command::Choices => &[Role::Number, Role::Number, Role::Random, Role::Output],
        Command::Begin => &[
            Role::NewRecord,
            Role::Number,
            Role::File(Buffer::System),
            Role::File(Buffer::Public),
            Role::File(Buffer::Secret),
            Role::File(Buffer::Choices),
            Role::Output,
        ],
        Command::Challenges | Command::Bits => &[Role::Number, Role::Random, Role::Output],
        Command::Answer => &[
            Role::Record,
            Role::File(Buffer::System),
            Role::File(Buffer::Public),
            Role::File(Buffer::Secret),
            Role::File(Buffer::Challenges),
            Role::File(Buffer::Choices),
            Role::Output,
        ],
        Command::Open => &[
            Role::Record,
            Role::File(Buffer::System),
            Role::File(Buffer::Public),
            Role::File(Buffer::Secret),
            Role::File(Buffer::Bits),
            Role::File(Buffer::Choices),
            Role::Output,
        ],
        Command::GiveUp => &[Role::NewRecord, Role::File(Buffer::Choices)],
        Command::Verdict => &[
            Role::Number,
            Role::File(Buffer::System),
            Role::File(Buffer::Public),
            Role::File(Buffer::Commitments),
            Role::File(Buffer::Challenges),
            Role::File(Buffer::Answers),
            Role::File(Buffer::Bits),
            Role::File(Buffer::Openings),
        ],
        Command::StandIn => &[
            Role::Number,
            Role::Number,
            Role::File(Buffer::System),
            Role::File(Buffer::Public),
            Role::File(Buffer::Choices),
            Role::Output,
        ],
        Command::Show => &[Role::File(Buffer::NoBuffer)],
        Command::Flip => &[
            Role::File(Buffer::NoBuffer),
            Role::Number,
            Role::Number,
            Role::Output,
        ],
        Command::Help => &[],
    }
}
