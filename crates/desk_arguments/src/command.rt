// The commands by their names.
use desk_files::argument::{argument, is_present, is_word};
use std::rt::Env;

#[derive(Clone, Copy, PartialEq, Eq)]
pub enum Command {
    System,
    Key,
    CheckKey,
    Choices,
    Begin,
    Challenges,
    Answer,
    Bits,
    Open,
    GiveUp,
    Verdict,
    StandIn,
    Show,
    Flip,
    Help,
}

fn of_name(name: &[u8]) -> Command {
    match name {
        b"system" => Command::System,
        b"key" => Command::Key,
        b"check-key" => Command::CheckKey,
        b"choices" => Command::Choices,
        b"begin" => Command::Begin,
        b"challenges" => Command::Challenges,
        b"answer" => Command::Answer,
        b"bits" => Command::Bits,
        b"open" => Command::Open,
        b"give-up" => Command::GiveUp,
        b"verdict" => Command::Verdict,
        b"stand-in" => Command::StandIn,
        b"show" => Command::Show,
        b"flip" => Command::Flip,
        _ => Command::Help,
    }
}

// The command that the argument names; help where there is none of that name.
pub fn command_named(rt: &impl Env, at: usize) -> Command {
    of_name(argument(rt, at, &mut io::buffer()))
}

// Whether the argument, which names this command, is the name of none.
pub fn is_unknown(rt: &impl Env, command: Command, at: usize) -> bool {
    command == Command::Help && is_present(rt, at) && !is_word(rt, at, b"help")
}
