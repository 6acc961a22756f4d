// Replaces files whole or not at all. What is to be in a file is first written to a new one beside it, whose name ends in .new; once every file
// of the command is there, each takes its name.
use crate::argument::{argument, fail, say_argument};
use crate::fault::tell_fault;
use crate::path::{create, open_to_update, remove, rename};
use hosting::text::{say, say_with};
use std::io::{Error, ErrorKind, Write};
use std::rt::{Env, Files};

// A file to be saved: the argument that names it, and what is to be in it.
#[derive(Clone, Copy)]
pub struct Output<'a> {
    pub at: usize,
    pub bytes: &'a [u8],
}

// Why a file is not saved: the one that the argument names can't be written, or one can't be replaced, which has been said.
#[derive(Clone, Copy)]
enum SaveError {
    Unwritten(usize),
    Unreplaced,
}

// The path that the argument names, with .new behind it, which is put into the room; empty where it is too long.
fn new_name<'a>(rt: &impl Env, at: usize, room: &'a mut [u8]) -> &'a [u8] {
    let size = argument(rt, at, room).len();
    if room.len() - size < 4 {
        return &[];
    }
    room[size..size + 4].copy_from_slice(b".new");
    &room[..size + 4]
}

// Says why the file can't be written, and takes away what there is of it.
fn give_up(rt: &impl Files, path: &[u8], error: Error) {
    tell_fault(path, error);
    let _ = remove(rt, path);
}

// Makes the file and writes all of the bytes, or says why not.
fn write_new<R: Files>(rt: &R, path: &[u8], bytes: &[u8]) -> Option<()> {
    let mut file = create(rt, path).map_err(|e| tell_fault(path, e)).ok()?;
    file.write_all(bytes).map_err(|e| give_up(rt, path, e)).ok()
}

// Whether there is no such file, or one that may be written. Devices are no files to be replaced.
fn is_replaceable<R: Env + Files>(rt: &R, at: usize) -> bool {
    let mut room = io::buffer();
    let path = argument(rt, at, &mut room);
    if path.starts_with(b"/dev/") {
        return false;
    }
    match open_to_update(rt, path) {
        Ok(_) => true,
        Err(e) => e.kind() == ErrorKind::NotFound,
    }
}

impl Output<'_> {
    // Writes the new file.
    fn prepare<R: Env + Files>(&self, rt: &R) -> Result<(), SaveError> {
        if !is_replaceable(rt, self.at) {
            return Err(SaveError::Unwritten(self.at));
        }
        let mut room = io::buffer();
        let name = new_name(rt, self.at, &mut room);
        write_new(rt, name, self.bytes).ok_or(SaveError::Unwritten(self.at))
    }

    // Takes the new file away.
    fn discard<R: Env + Files>(&self, rt: &R) {
        let _ = remove(rt, new_name(rt, self.at, &mut io::buffer()));
    }

    // Gives the new file its name, or says that it can't.
    fn commit<R: Env + Files>(&self, rt: &R) -> Result<(), SaveError> {
        let mut name = io::buffer();
        let mut path = io::buffer();
        let renamed = rename(
            rt,
            new_name(rt, self.at, &mut name),
            argument(rt, self.at, &mut path),
        );
        if renamed.is_err() {
            self.discard(rt);
            fail(rt, self.at, b" can't be replaced");
            return Err(SaveError::Unreplaced);
        }
        say(b"wrote ");
        say_argument(rt, self.at);
        say_with(b", ", self.bytes.len());
        say(b" bytes\n");
        Ok(())
    }
}

fn discard_all<R: Env + Files>(rt: &R, outputs: &[Option<Output>]) {
    for output in outputs {
        if let Some(output) = output {
            output.discard(rt);
        }
    }
}

// Writes every new file, or none.
fn prepare_all<R: Env + Files>(rt: &R, outputs: &[Option<Output>]) -> Result<(), SaveError> {
    for (k, output) in outputs.iter().enumerate() {
        if let Some(output) = output
            && let Err(e) = output.prepare(rt)
        {
            discard_all(rt, &outputs[..k]);
            return Err(e);
        }
    }
    Ok(())
}

// Gives each new file its name; where one can't be given, those behind it are taken away.
fn commit_all<R: Env + Files>(rt: &R, outputs: &[Option<Output>]) -> Result<(), SaveError> {
    for (k, output) in outputs.iter().enumerate() {
        if let Some(output) = output
            && let Err(e) = output.commit(rt)
        {
            discard_all(rt, &outputs[k + 1..]);
            return Err(e);
        }
    }
    Ok(())
}

fn replace_all<R: Env + Files>(rt: &R, outputs: &[Option<Output>]) -> Result<(), SaveError> {
    prepare_all(rt, outputs)?;
    commit_all(rt, outputs)
}

// Saves the files that there are, in this order.
pub fn save_all<R: Env + Files>(rt: &R, outputs: &[Option<Output>]) {
    match replace_all(rt, outputs) {
        Ok(()) => say(b"done\n"),
        Err(SaveError::Unwritten(at)) => fail(rt, at, b" can't be written; no file is changed"),
        Err(SaveError::Unreplaced) => {}
    }
}

pub fn save<R: Env + Files>(rt: &R, at: usize, bytes: &[u8]) {
    save_all(rt, &[Some(Output { at, bytes })]);
}
