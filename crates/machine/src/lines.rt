// The numbers of a line, as an event and of an answer.
ghost use Rattle.std.specs.Prelude.{◌≡◌};
ghost use Rattle.machine.specs.Line.{numbers_of};
ghost use Rattle.machine.specs.Replay.{event_of, time_number, answer_numbers};

use crate::{Answer, Event, Numbers, Time};

// -1 is never.
pub fn time_number(t: Time) -> i64
    ensures { result ≡ time_number t }
{
    match t {
        None => -1,
        Some(n) => n as i64,
    }
}

// An event is partition, call, a, b, c, e.
impl From<Numbers> for Event {
    ghost from_gives = { λ n e. e ≡ event_of n };

    fn from(n: Numbers) -> Event {
        Event {
            partition: n.n1,
            call: n.n2,
            a: n.n3,
            b: n.n4,
            c: n.n5,
            e: n.n6,
        }
    }
}

// Fields: code, value, extra, t, current, running.
impl From<Answer> for Numbers {
    ghost from_gives = { λ a n. n ≡ numbers_of (answer_numbers a) };

    fn from(a: Answer) -> Numbers {
        Numbers {
            n1: a.code as i64,
            n2: a.value as i64,
            n3: time_number(a.extra),
            n4: a.t as i64,
            n5: a.current as i64,
            n6: a.running as i64,
        }
    }
}
