// Writers: the numbers, the plain buffer that holds the rest of the body, then ROOM.
#![tactic(auto)]

ghost use Rattle.std.specs.Prelude.{◌≡◌, ◌+◌, ◌-◌, ◌≤◌, ◌<◌, length};
ghost use Rattle.refusals.specs.Told.{means};
ghost use Rattle.algebra.specs.Lists.{over};
ghost use Rattle.kinds.specs.Kinds.{table};
ghost use Rattle.writers.specs.Writing.{heading, frame, plain_check, Writes};

use algebra::output::{copy_at, copy_into};
use bodies::{check_content, spare_clear};
use kinds::{Expected, Kind};
use refusals::{Buffer, Reason, Refusal, refuse};

// The numbers, then the plain buffer.
fn check_plain(kind: Kind, a: usize, b: usize, plain: &[u8]) -> Result<(), Refusal>
    ensures { means result ≡ plain_check kind a b plain.now }
{
    if !kind.numbers_fit(Expected::alone(), a, b) {
        return refuse(Reason::Shape, Buffer::NoBuffer, 0);
    }
    if plain.len() != kind.size(a, b) {
        return refuse(Reason::Shape, kind.buffer(), 0);
    }
    check_content(kind, a, b, 0, plain)?;
    if !spare_clear(kind, a, plain) {
        return refuse(Reason::Shape, kind.buffer(), 0);
    }
    Ok(())
}

// Writes what stands before the `size` bytes of the rest of a body, for which there is room.
pub fn put_heading(kind: Kind, a: usize, b: usize, size: usize, out: &mut [u8])
    requires { (a < 256) × (b < 256) × (size < 65000) × ((table kind).start ≤ length out.old) }
    ensures { out.new ≡ over (heading kind ((table kind).start - 2 + size) a b) out.old }
{
    let start = kind.start();
    let [high, low] = ((start - 2 + size) as u16).to_be_bytes();
    let bytes = [high, low, kind.version(), kind.number(), a as u8, b as u8];
    copy_into(&bytes[..start], out);
}

// Writes a frame, for which there is room.
pub fn put_frame(kind: Kind, a: usize, b: usize, rest: &[u8], out: &mut [u8])
    requires { (a < 256) × (b < 256) × (length rest.now < 65000) × ((table kind).start + length rest.now ≤ length out.old) }
    ensures { out.new ≡ over (frame kind a b rest.now) out.old }
{
    put_heading(kind, a, b, rest.len(), out);
    copy_at(rest, kind.start(), out);
}

// Writes a frame of any kind, and answers the bytes written. A kind that has one number takes 0 for the second.
pub fn write_frame(
    kind: Kind,
    a: usize,
    b: usize,
    plain: &[u8],
    out: &mut [u8],
) -> Result<usize, Refusal>
    ensures { Writes kind a b plain.now out.old result out.new }
{
    check_plain(kind, a, b, plain)?;
    let need = kind.start() + plain.len();
    if out.len() < need {
        return refuse(Reason::Room, Buffer::Output, need);
    }
    put_frame(kind, a, b, plain, out);
    Ok(need)
}
