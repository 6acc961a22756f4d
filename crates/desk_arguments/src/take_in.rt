// Takes in the arguments of a command.
use crate::command::Command;
use crate::help::help;
use crate::role::{Role, roles};
use desk_files::argument::{FIRST, fail, given};
use desk_files::load::{
    LoadError, load_new_record, load_number, load_random, load_record, load_whole,
};
use desk_files::slots::Slots;
use refusals::Buffer;
use std::rt::{Env, Files};

// Why a command can't be run.
#[derive(Clone, Copy)]
pub enum TakeError {
    // It is given fewer arguments than it takes, or more.
    Count,
    // The argument can't be taken in.
    Argument(usize, LoadError),
}

fn load<R: Env + Files>(rt: &R, role: Role, at: usize, lent: &mut Slots) -> Result<(), LoadError> {
    match role {
        Role::Number => load_number(rt, at),
        Role::Record => load_record(rt, at, lent.slot_mut(Buffer::NoBuffer)),
        Role::NewRecord => load_new_record(rt, at, lent.slot_mut(Buffer::NoBuffer)),
        Role::Random => load_random(rt, at, lent.slot_mut(Buffer::Random)),
        Role::File(buffer) => load_whole(rt, at, lent.slot_mut(buffer)),
        Role::Source | Role::Output => Ok(()),
    }
}

// Takes in all arguments, each file into its slot.
pub fn take_in<R: Env + Files>(
    rt: &R,
    command: Command,
    lent: &mut Slots,
) -> Result<(), TakeError> {
    let roles = roles(command);
    if given(rt) != roles.len() {
        return Err(TakeError::Count);
    }
    for (k, role) in roles.iter().enumerate() {
        let at = FIRST + k;
        load(rt, *role, at, lent).map_err(|e| TakeError::Argument(at, e))?;
    }
    Ok(())
}

// Says why the command can't be run.
pub fn tell(rt: &impl Env, command: Command, error: TakeError) {
    match error {
        TakeError::Count => help(command),
        TakeError::Argument(at, e) => fail(rt, at, e.words()),
    }
}
