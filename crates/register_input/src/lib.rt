// The verdict program's input: a grade byte and the frames end to end, cut by their counts.
#![tactic(auto)]

ghost use Rattle.std.specs.Prelude.{◌≡◌, get_or, drop};
ghost use Rattle.refusals.specs.Told.{means_count};
ghost use Rattle.register_input.specs.Cutting.{front, behind, Ends, judging_input};

use frames::read::count_of;
use refusals::Refusal;
use register::decide::verdict;
use register_rules::SignOn;

// Where the frame in front ends.
fn front_end(s: &[u8]) -> usize
    ensures { Ends s.now result }
{
    if s.len() < 2 {
        return s.len();
    }
    s.len().min(count_of(s) + 2)
}

// The frame in front, and what is behind it.
fn cut(s: &[u8]) -> (&[u8], &[u8])
    ensures { (result.0.now ≡ front s.now) × (result.1.now ≡ behind s.now) }
{
    s.split_at(front_end(s))
}

// The grade, and the frames behind it.
fn grade_and_frames(input: &[u8]) -> (usize, &[u8])
    ensures { (result.0 ≡ get_or input.now 0 0) × (result.1.now ≡ drop 1 input.now) }
{
    match input.split_first() {
        Some((grade, frames)) => (usize::from(*grade), frames),
        None => (0, input),
    }
}

// The verdict over an input.
pub fn judge(input: &[u8]) -> Result<usize, Refusal>
    ensures { means_count result ≡ judging_input input.now }
{
    let (grade, frames) = grade_and_frames(input);
    let (system, rest) = cut(frames);
    let (key, rest) = cut(rest);
    let (commitments, rest) = cut(rest);
    let (challenges, rest) = cut(rest);
    let (answers, rest) = cut(rest);
    let (bits, openings) = cut(rest);
    let x = SignOn {
        system,
        key,
        commitments,
        challenges,
        answers,
        bits,
        openings,
    };
    verdict(grade, &x)
}
