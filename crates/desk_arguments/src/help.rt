// What each command takes, reads and writes.
use crate::command::Command;
use hosting::text::say;

fn words(command: Command) -> &'static [u8] {
    match command {
        Command::System => {
            b"desk system N M RANDOM OUT\n\
              \x20 Makes a system, kind 1: n is 2 to 64, m is 1 to n-1, and the m(n-m) entries are drawn from the random bytes.\n"
        }
        Command::Key => {
            b"desk key SYSTEM RANDOM PUBLIC SECRET\n\
              \x20 Makes a key of the system: the public key, kind 2, and the secret key, kind 3.\n\
              \x20 A try takes up to 256 random bytes; while one is refused for what was drawn, the bytes that follow are tried, up to 100000 times.\n"
        }
        Command::CheckKey => {
            b"desk check-key SYSTEM PUBLIC SECRET\n\
              \x20 Says whether the secret key is one of the public key. Writes nothing.\n"
        }
        Command::Choices => {
            b"desk choices N ROUNDS RANDOM OUT\n\
              \x20 Draws the card's choices for a sign-on: R and sigma of each round, 2 n ROUNDS bytes with no frame.\n\
              \x20 Choices serve one sign-on, and `open` and `give-up` zero them. Never copy the file: choices lent twice give the secret key away.\n"
        }
        Command::Begin => {
            b"desk begin RECORD ROUNDS SYSTEM PUBLIC SECRET CHOICES OUT\n\
              \x20 The card's first pass: writes the commitments of all rounds, kind 4.\n\
              \x20 RECORD is what the card keeps, 68 bytes: idle or closed before, committed after. A missing file is an idle record.\n"
        }
        Command::Challenges => {
            b"desk challenges ROUNDS RANDOM OUT\n\
              \x20 The register's first pass: draws a challenge for each round, kind 5.\n"
        }
        Command::Answer => {
            b"desk answer RECORD SYSTEM PUBLIC SECRET CHALLENGES CHOICES OUT\n\
              \x20 The card's second pass: writes the first answers, kind 6. RECORD is committed before, answered after.\n"
        }
        Command::Bits => {
            b"desk bits ROUNDS RANDOM OUT\n\
              \x20 The register's second pass: draws a bit for each round, kind 7.\n"
        }
        Command::Open => {
            b"desk open RECORD SYSTEM PUBLIC SECRET BITS CHOICES OUT\n\
              \x20 The card's last pass: writes the openings, kind 8, and zeroes CHOICES. RECORD is answered before, closed after.\n"
        }
        Command::GiveUp => {
            b"desk give-up RECORD CHOICES\n\
              \x20 Ends a sign-on at any stage: the record becomes idle and the choices are zeroed. It is never refused.\n"
        }
        Command::Verdict => {
            b"desk verdict GRADE SYSTEM PUBLIC COMMITMENTS CHALLENGES ANSWERS BITS OPENINGS\n\
              \x20 Prints `accepted N`, or the first refusal. Grade 1 asks for 20 rounds, grade 2 for 31. Writes nothing.\n"
        }
        Command::StandIn => {
            b"desk stand-in CHALLENGE BIT SYSTEM PUBLIC LENT OUT\n\
              \x20 Makes a round that passes, without a key: commitment, first answer and permutation, 32 + 2 n bytes with no frame.\n\
              \x20 LENT is a vector and a permutation, 2 n bytes: what `desk choices N 1 RANDOM LENT` draws.\n"
        }
        Command::Show => {
            b"desk show FILE\n\
              \x20 Prints any frame in words: its kind, its numbers and its values; or its refusal, with the place in brackets. Writes nothing.\n"
        }
        Command::Flip => {
            b"desk flip FILE PLACE BIT OUT\n\
              \x20 Writes the file with one bit flipped: bit 0 to 7, the highest first, of the byte at the place, counted from 0.\n"
        }
        Command::Help => {
            b"The desk: a sign-on by hand, over files. Each command with no arguments prints what it takes.\n\
              \n\
              \x20 system      makes a system\n\
              \x20 key         makes a key of a system\n\
              \x20 check-key   checks a key\n\
              \x20 choices     draws the card's choices\n\
              \x20 begin       the card's commitments\n\
              \x20 challenges  the register's challenges\n\
              \x20 answer      the card's first answers\n\
              \x20 bits        the register's bits\n\
              \x20 open        the card's openings\n\
              \x20 verdict     accepted, or why not\n\
              \x20 give-up     ends a sign-on of the card\n\
              \x20 stand-in    makes a round without a key\n\
              \x20 show        prints any frame in words\n\
              \x20 flip        breaks a message\n\
              \n\
              RANDOM is a file of random bytes, such as /dev/urandom. A file that is written is replaced whole or not at all, by way of a new file of that\n\
              name with .new behind it, and can be read by its owner alone.\n\
              The last line tells what came, for there is no exit status: `done`, `accepted N`, `refused` with name, number, buffer and place, or `failed`.\n\
              After `refused` no file has changed, and after `failed` none but those that a line `wrote` names.\n"
        }
    }
}

pub fn help(command: Command) {
    say(words(command));
}
