// Files by their paths. A path is text in UTF-8: no other names a file here.
ghost use Rattle.std.specs.Prelude.{◌≡◌, IfOk};
ghost use Rattle.io.specs.Counts.{IsPrefixLen};

use std::fs;
use std::fs::{File, OpenFile, OpenOptions, Permissions};
use std::io::{Error, Read, Result, Write};
use std::os::unix::fs::{OpenOptionsExt, PermissionsExt};
use std::rt::Files;
use std::str::from_utf8;

// Readable and writable by the owner alone.
const OWNER_ONLY: u32 = 0o600;

// The system's number of the error that says of bytes that they are no text.
const NO_TEXT: i32 = 84;

fn text_of(path: &[u8]) -> Result<&str>
    ensures { IfOk result (λ text. text.now ≡ path.now) }
{
    from_utf8(path).map_err(|_| Error::from_raw_os_error(NO_TEXT))
}

pub fn open_to_read<R: Files>(rt: &R, path: &[u8]) -> Result<R::File> {
    File::open(rt, text_of(path)?)
}

// Opens a file for writing and leaves its bytes as they are.
pub fn open_to_update<R: Files>(rt: &R, path: &[u8]) -> Result<R::File> {
    OpenOptions::new()
        .read(true)
        .write(true)
        .open(rt, text_of(path)?)
}

// Makes a file, which its owner alone can read and write; not where there is one of that name.
pub fn create<R: Files>(rt: &R, path: &[u8]) -> Result<R::File> {
    let mut options = OpenOptions::new();
    options.write(true).create_new(true).mode(OWNER_ONLY);
    let file = options.open(rt, text_of(path)?)?;
    let _ = file.set_permissions(Permissions::from_mode(OWNER_ONLY));
    Ok(file)
}

pub fn remove(rt: &impl Files, path: &[u8]) -> Result<()> {
    fs::remove_file(rt, text_of(path)?)
}

pub fn rename(rt: &impl Files, from: &[u8], to: &[u8]) -> Result<()> {
    fs::rename(rt, text_of(from)?, text_of(to)?)
}

// Reads until the room is full, the file ends or a read fails, and answers how many bytes came.
pub fn read_full(file: &mut impl Read, room: &mut [u8]) -> usize
    ensures { IsPrefixLen result room.new }
{
    let mut done: usize = 0;
    while done < room.len() {
        match file.read(&mut room[done..]) {
            Ok(0) | Err(_) => return done,
            Ok(size) => done += size,
        }
    }
    done
}
