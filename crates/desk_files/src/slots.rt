// The files of a command: a slot for each buffer. That of no buffer has the record, or the one file of a command that takes any.
ghost use Rattle.std.specs.Prelude.{◌≡◌, ◌≤◌, IfSome, replicate, slice_get, take};
ghost use Rattle.refusals.specs.Buffer.{buffer_number};

use crate::path::read_full;
use refusals::Buffer;
use std::io::Read;

// The most bytes of a file.
pub const FILE_MOST: usize = 16384;

const SLOTS: usize = 12;

// Room for a file, and how much of it the file takes.
#[derive(Clone, Copy)]
pub struct Slot {
    bytes: [u8; FILE_MOST],
    size: usize,
    ghost within: { size ≤ 16384 },
}

impl Slot {
    // A file of zeros.
    pub fn zeros(size: usize) -> Slot
        requires { size ≤ 16384 }
        ensures { take result.size result.bytes ≡ replicate size 0 }
    {
        Slot {
            bytes: [0; FILE_MOST],
            size,
        }
    }

    pub fn file(&self) -> &[u8]
        ensures { result.now ≡ take self.now.size self.now.bytes }
    {
        &self.bytes[..self.size]
    }

    // Reads the file into the slot, as far as there is room.
    pub fn fill(&mut self, file: &mut impl Read) {
        self.size = read_full(file, &mut self.bytes);
    }
}

// The files that a command is lent, whatever holds them and of whatever size.
pub trait Lent {
    // The file of a buffer; nothing where the command takes none.
    fn file(&self, buffer: Buffer) -> &[u8];
}

// The slots of all buffers.
#[derive(Drop)]
pub struct Slots([Slot; SLOTS]);

impl Slots {
    pub fn empty() -> Slots {
        Slots([Slot::zeros(0); SLOTS])
    }

    pub fn slot_mut(&mut self, buffer: Buffer) -> &mut Slot {
        &mut self.0[buffer as usize]
    }
}

impl Lent for Slots {
    fn file(&self, buffer: Buffer) -> &[u8]
        ensures { IfSome (slice_get self.now.0 (buffer_number buffer)) (λ slot. result.now ≡ take slot.size slot.bytes) }
    {
        self.0[buffer as usize].file()
    }
}
