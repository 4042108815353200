// The lists of ids, by what is known of an id: those that pass a test, the first of them, the one of greatest priority. What is known is lent
// beside the list, so nothing is copied; a test, and a priority, is a type that answers for every id.
#![tactic(auto)]

ghost use Rattle.std.specs.Prelude.{◌≡◌, ℕ, Bool, get_or, fold};
ghost use Rattle.machine.specs.Ids.{members, ids_of, kept};
ghost use Rattle.machine.specs.Partition.{preferred};

use machine::{Choice, Ids, Module};

// A test of ids, by what is lent beside them.
pub trait Test<D>: Copy {
    ghost passes: { Self → D → ℕ → Bool };

    fn passes(self, known: &D, id: u8) -> bool
        ensures { result ≡ passes self known.now id };
}

// The priority of ids, by what is lent beside them.
pub trait Priority<D>: Copy {
    ghost priority: { Self → D → ℕ → ℕ };

    fn priority(self, known: &D, id: u8) -> u8
        ensures { result ≡ priority self known.now id };
}

// The ids of a list that pass a test. The new list is filled where it lies: a function that gives a list would copy it at each turn.
pub fn keep<D, T: Test<D>>(q: Ids, known: &D, test: T) -> Ids
    ensures { result ≡ ids_of (kept (T.passes test known.now) (members q)) }
{
    let mut found = Ids {
        items: [0; Module::PROCESSES],
        len: 0,
    };
    for id in arrays::held(&q.items, q.len) {
        if test.passes(known, *id) {
            let len = found.len;
            found.len = arrays::join_last(&mut found.items, len, *id);
        }
    }
    found
}

// The first id of a list that passes a test, 0 for none.
pub fn first_where<D, T: Test<D>>(q: Ids, known: &D, test: T) -> u8
    ensures { result ≡ get_or (kept (T.passes test known.now) (members q)) 0 0 }
{
    for id in arrays::held(&q.items, q.len) {
        if test.passes(known, *id) {
            return *id;
        }
    }
    0
}

// The process chosen so far, or a later one of greater priority.
pub fn or_later(c: Choice, id: u8, priority: u8) -> Choice
    ensures { result ≡ preferred c id priority }
{
    if c.id == 0 || c.priority < priority {
        Choice { id, priority }
    } else {
        c
    }
}

// The id of a list that has the greatest priority, the first among equals; 0 for none.
pub fn greatest<D, P: Priority<D>>(q: Ids, known: &D, by: P) -> u8
    ensures { result ≡ (fold (λ c id. preferred c id (P.priority by known.now id)) (record { id = 0; priority = 0 }) (members q)).id }
{
    let mut best = Choice { id: 0, priority: 0 };
    for id in arrays::held(&q.items, q.len) {
        best = or_later(best, *id, by.priority(known, *id));
    }
    best.id
}
