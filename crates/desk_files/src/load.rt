// Files and numbers, taken in by the arguments that name them.
use crate::argument::{argument, number_at};
use crate::fault::tell_fault;
use crate::path::open_to_read;
use crate::slots::Slot;
use std::io::{ErrorKind, Read};
use std::rt::{Env, Files};

const RECORD_SIZE: usize = 68;

// Why an argument can't be taken in.
#[derive(Clone, Copy)]
pub enum LoadError {
    NoNumber,
    Unopened,
    Unread,
    TooLarge,
    NoRecord,
}

impl LoadError {
    // What is said of the argument.
    pub fn words(self) -> &'static [u8] {
        match self {
            LoadError::NoNumber => b" is no number of 0 to 65535",
            LoadError::Unopened => b" can't be opened for reading",
            LoadError::Unread => b" can't be read",
            LoadError::TooLarge => b" is too large: no file here has more than 16384 bytes",
            LoadError::NoRecord => b" is no record: a record has 68 bytes",
        }
    }
}

// Opens the file that an argument names for reading.
pub fn open_source<R: Env + Files>(rt: &R, at: usize) -> Result<R::File, LoadError> {
    let mut room = io::buffer();
    let path = argument(rt, at, &mut room);
    match open_to_read(rt, path) {
        Ok(file) => Ok(file),
        Err(e) => {
            tell_fault(path, e);
            Err(LoadError::Unopened)
        }
    }
}

// Whether there is no file of the name.
fn is_new<R: Env + Files>(rt: &R, at: usize) -> bool {
    match open_to_read(rt, argument(rt, at, &mut io::buffer())) {
        Ok(_) => false,
        Err(e) => e.kind() == ErrorKind::NotFound,
    }
}

pub fn load_number(rt: &impl Env, at: usize) -> Result<(), LoadError> {
    match number_at(rt, at) {
        Some(_) => Ok(()),
        None => Err(LoadError::NoNumber),
    }
}

// Reads no further than where the file has to end.
fn at_end(file: &mut impl Read) -> Result<(), LoadError> {
    match file.read(&mut [0]) {
        Ok(0) => Ok(()),
        Ok(_) => Err(LoadError::TooLarge),
        Err(_) => Err(LoadError::Unread),
    }
}

pub fn load_whole<R: Env + Files>(rt: &R, at: usize, slot: &mut Slot) -> Result<(), LoadError> {
    let mut file = open_source(rt, at)?;
    slot.fill(&mut file);
    at_end(&mut file)
}

// As many random bytes as there is room for.
pub fn load_random<R: Env + Files>(rt: &R, at: usize, slot: &mut Slot) -> Result<(), LoadError> {
    slot.fill(&mut open_source(rt, at)?);
    Ok(())
}

pub fn load_record<R: Env + Files>(rt: &R, at: usize, slot: &mut Slot) -> Result<(), LoadError> {
    slot.fill(&mut open_source(rt, at)?);
    match slot.file().len() {
        RECORD_SIZE => Ok(()),
        _ => Err(LoadError::NoRecord),
    }
}

// A record whose file is missing is idle: all zeros.
pub fn load_new_record<R: Env + Files>(
    rt: &R,
    at: usize,
    slot: &mut Slot,
) -> Result<(), LoadError> {
    if is_new(rt, at) {
        *slot = Slot::zeros(RECORD_SIZE);
        return Ok(());
    }
    load_record(rt, at, slot)
}
