// Bytes whose length is not known: what is not there is 0, or empty.
ghost use Rattle.std.specs.Prelude.{◌≤◌, length};

pub fn byte_of(bytes: &[u8], k: usize) -> u8 {
    bytes.get(k).copied().unwrap_or(0)
}

// The first `size` bytes; nothing where there are fewer.
pub fn front(bytes: &[u8], size: usize) -> &[u8] {
    bytes.get(..size).unwrap_or(&[])
}

// The bytes from `start` on; nothing where there are fewer.
pub fn behind(bytes: &[u8], start: usize) -> &[u8] {
    bytes.get(start..).unwrap_or(&[])
}

// Copies a buffer into the room, and answers the copy; nothing of one that is longer than the room.
pub fn lay<'a>(buffer: &[u8], room: &'a mut [u8]) -> &'a mut [u8]
    ensures { length result.now ≤ length room.old }
{
    if room.len() < buffer.len() {
        return &mut [];
    }
    let copy = &mut room[..buffer.len()];
    copy.copy_from_slice(buffer);
    copy
}
