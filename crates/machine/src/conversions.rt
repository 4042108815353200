// The numbers of an event or of a line, as the rules look at them.
ghost use Rattle.std.specs.Prelude.{◌≡◌};
ghost use Rattle.machine.specs.Fields.{field, row_of, request_of};

use crate::{Event, Field, Numbers, Request, Row};

impl From<i64> for Field {
    ghost from_gives = { λ x r. r ≡ field x };

    fn from(x: i64) -> Field {
        if x == -1 {
            return Field::MinusOne;
        }
        match u32::try_from(x) {
            Ok(n) => Field::Number(n),
            Err(_) => Field::Other,
        }
    }
}

impl From<Numbers> for Row {
    ghost from_gives = { λ n r. r ≡ row_of n };

    fn from(n: Numbers) -> Row {
        Row {
            f1: Field::from(n.n1),
            f2: Field::from(n.n2),
            f3: Field::from(n.n3),
            f4: Field::from(n.n4),
            f5: Field::from(n.n5),
            f6: Field::from(n.n6),
        }
    }
}

impl From<Event> for Request {
    ghost from_gives = { λ e r. r ≡ request_of e };

    fn from(e: Event) -> Request {
        Request {
            partition: Field::from(e.partition),
            call: Field::from(e.call),
            a: Field::from(e.a),
            b: Field::from(e.b),
            c: Field::from(e.c),
            e: Field::from(e.e),
        }
    }
}
