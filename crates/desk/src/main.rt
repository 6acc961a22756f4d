// The desk: a sign-on by hand, one command for each call, over files.
#![tactic(auto)]

use desk_arguments::command::{Command, command_named, is_unknown};
use desk_arguments::help::help;
use desk_arguments::take_in::{take_in, tell};
use desk_files::argument::fail;
use desk_files::slots::{FILE_MOST, Lent, Slots};
use frame_words::show;
use refusals::Buffer;
use std::rt::{Env, Files};

// The argument that names the command.
const NAME_AT: usize = 1;

fn run<R: Env + Files>(
    rt: &R,
    command: Command,
    lent: &impl Lent,
    room: &mut [u8],
    out: &mut [u8],
) {
    match command {
        Command::System => desk_commands::new_system::system(rt, lent, room, out),
        Command::Key => desk_commands::new_key::key(rt, lent, out),
        Command::CheckKey => desk_card::check(lent),
        Command::Choices => desk_commands::drawing::choices(rt, lent, out),
        Command::Begin => desk_card::begin(rt, lent, out),
        Command::Challenges => desk_commands::drawing::challenges(rt, lent, out),
        Command::Answer => desk_card::answer(rt, lent, out),
        Command::Bits => desk_commands::drawing::bits(rt, lent, out),
        Command::Open => desk_card::open(rt, lent, room, out),
        Command::GiveUp => desk_card::give_up(rt, lent, room),
        Command::Verdict => desk_commands::at_register::judge(rt, lent),
        Command::StandIn => desk_commands::without_key::play(rt, lent, out),
        Command::Show => show(lent.file(Buffer::NoBuffer)),
        Command::Flip => desk_commands::flip::flip(rt, lent, out),
        Command::Help => help(command),
    }
}

fn main(rt: HostRuntime) {
    let command = command_named(&rt, NAME_AT);
    let mut lent = Slots::empty();
    match take_in(&rt, command, &mut lent) {
        Ok(()) => run(
            &rt,
            command,
            &lent,
            &mut [0; FILE_MOST],
            &mut [0; FILE_MOST],
        ),
        Err(e) => tell(&rt, command, e),
    }
    if is_unknown(&rt, command, NAME_AT) {
        fail(&rt, NAME_AT, b" is no command of the desk");
    }
}
