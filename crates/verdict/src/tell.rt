// The line of a verdict: `accepted N`, or `refused NUMBER BUFFER PLACE`.
use hosting::text::{say, say_with};
use refusals::Refusal;

fn tell_refused(x: Refusal) {
    say_with(b"refused ", usize::from(x.reason.number()));
    say_with(b" ", usize::from(x.buffer.number()));
    say_with(b" ", x.place);
}

pub fn tell(told: Result<usize, Refusal>) {
    match told {
        Ok(rounds) => say_with(b"accepted ", rounds),
        Err(x) => tell_refused(x),
    }
    say(b"\n");
}
