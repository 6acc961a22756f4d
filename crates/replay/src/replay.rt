// The calls of a case, each with its line; those of the card and of the register are in the crate `replay_sign_on`.
use draw::choices::draw_choices;
use draw::messages::{draw_bits, draw_challenges};
use draw::permutation::draw_permutation;
use hosting::bytes::lay;
use hosting::text::{say, say_number};
use key_making::make_key;
use kinds::{AFTER_TWO, Kind};
use readers::opening::{check_opening, opening};
use readers::read;
use refusals::Refusal;
use replay_cases::case::{Call, buffer_of, call_number, number_of};
use replay_cases::line::{tell, tell_bytes, tell_number};
use replay_sign_on::replay_sign_on;
use sha256::{hash, shown};
use stand_in::stand_in;
use writers::write_frame;

fn replay_write(kind: Kind, case: &[u8], out: &mut [u8]) {
    let second = match kind.start() {
        AFTER_TWO => number_of(case, 1),
        _ => 0,
    };
    tell(write_frame(kind, number_of(case, 0), second, buffer_of(case, 0), out));
    tell_bytes(out);
}

fn replay_opening(frame: &[u8], round: usize) {
    tell(check_opening(frame, round));
    tell_bytes(opening(frame, round));
}

fn replay_hash(message: &[u8]) {
    let hashed = hash(message);
    tell(hashed.map(|_| ()));
    tell_bytes(&shown(hashed));
}

fn replay_stand_in(case: &[u8], out: &mut [u8]) {
    tell(stand_in(
        number_of(case, 0),
        number_of(case, 1),
        buffer_of(case, 0),
        buffer_of(case, 1),
        buffer_of(case, 2),
        out,
    ));
    tell_bytes(out);
}

fn tell_drawn(told: Result<usize, Refusal>, out: &[u8]) {
    tell(told);
    tell_bytes(out);
}

fn replay_call(call: Call, case: &[u8], out: &mut [u8]) {
    let first = buffer_of(case, 0);
    let n = number_of(case, 0);
    match call {
        Call::Read(kind) => tell(read(kind, first)),
        Call::Write(kind) => replay_write(kind, case, out),
        Call::Opening => replay_opening(first, n),
        Call::Hash => replay_hash(first),
        Call::StandIn => replay_stand_in(case, out),
        Call::DrawPermutation => tell_drawn(draw_permutation(n, first, out), out),
        Call::DrawChallenges => tell_drawn(draw_challenges(n, first, out), out),
        Call::DrawBits => tell_drawn(draw_bits(n, first, out), out),
        Call::DrawChoices => tell_drawn(draw_choices(n, number_of(case, 1), first, out), out),
        Call::MakeKey => tell_drawn(make_key(first, buffer_of(case, 1), out), out),
        Call::SignOn(call) => replay_sign_on(call, case, out),
    }
}

// The buffer that is lent for writing is laid into the room.
fn replay_in(call: Call, case: &[u8], room: &mut [u8]) {
    match call.lent_place() {
        Some(place) => replay_call(call, case, lay(buffer_of(case, place), room)),
        None => replay_call(call, case, &mut []),
    }
}

// A case and its line.
pub fn replay(index: usize, case: &[u8]) {
    let number = call_number(case);
    say_number(index);
    tell_number(usize::from(number));
    if let Some(call) = Call::of_number(number) {
        replay_in(call, case, &mut [0; 16384]);
    }
    say(b"\n");
}
