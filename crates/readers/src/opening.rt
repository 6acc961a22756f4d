// The opening of a named round, a stretch of the openings frame.
ghost use Rattle.std.specs.Prelude.{◌≡◌, [], IfOk};
ghost use Rattle.refusals.specs.Told.{means, outcome};
ghost use Rattle.frames.specs.Reading.{opening_check, opening_of};

use crate::read;
use kinds::Kind;
use refusals::{Buffer, Reason, Refusal, refuse};

// The permutation of the round, as that stretch of the frame; else the frame's own refusals, and then a round that it does not have.
pub fn read_opening(frame: &[u8], round: usize) -> Result<&[u8], Refusal>
    ensures told { outcome (λ part. []) result ≡ opening_check frame.now round }
    ensures part { IfOk result (λ part. part.now ≡ opening_of frame.now round) }
{
    let openings = read(Kind::Openings, frame)?;
    if openings.second <= round {
        return refuse(Reason::Shape, Buffer::NoBuffer, 0);
    }
    let from = openings.start + round * openings.first;
    let to = from + openings.first;
    Ok(&frame[from..to])
}

// Whether there is such a round.
pub fn check_opening(frame: &[u8], round: usize) -> Result<(), Refusal>
    ensures { means result ≡ opening_check frame.now round }
{
    read_opening(frame, round)?;
    Ok(())
}

// The permutation of the round, as that stretch of the frame; nothing where check_opening refuses.
pub fn opening(frame: &[u8], round: usize) -> &[u8]
    ensures { result.now ≡ opening_of frame.now round }
{
    match read_opening(frame, round) {
        Ok(part) => part,
        Err(_) => &[],
    }
}
