// What an event is refused for before its partition is looked at: 13, and for a tick 10.
#![tactic(auto)]

ghost use Rattle.std.specs.Prelude.{◌≡◌, not, ◌&&◌, ltb};
ghost use Rattle.machine.specs.Fields.{is_number};
ghost use Rattle.machine.specs.declared.Table.{Table};
ghost use Rattle.machine.specs.Services.{service_of};
ghost use Rattle.machine.specs.Places.{stray_field, one_zero, malformed};
ghost use Rattle.places.specs.Placed.{placed_as, placed_at};

use machine::{Field, Module, Refusal, Request};

// An event before its partition is looked at: 13, 10 or 0, and the time after it, which there is whatever the code: t where it is refused.
#[derive(Clone, Copy)]
pub struct Placed {
    pub code: u8,
    pub time: u32,
}

// How many of the fields a, b, c, e each number uses, from 0 on: the tick, then the calls.
const FIELDS: [u8; 35] = [
    0, 1, 4, 1, 2, 1, 0, 1, 1, 1, 0, 1, 2, 1, 3, 2, 1, 1, 1, 1, 2, 2, 1, 2, 3, 2, 1, 2, 2, 1, 3, 2,
    0, 0, 0,
];

// How many of the fields a, b, c, e call n uses; the tick and another number use none. Not by `FIELDS.get(..)`: that its copy is the number there
// did not close.
fn fields_of(n: u32) -> u8
    ensures { result ≡ (service_of n).fields }
{
    if n <= Module::CALL {
        FIELDS[n as usize]
    } else {
        0
    }
}

// Whether a field that is not among the used ones is not 0.
fn is_stray_at(used: u8, place: u8, f: Field) -> bool
    ensures { result ≡ (ltb used place && not (is_number 0 f)) }
{
    used < place && !fields::is_number(f, 0)
}

#[tactic(auto, unfolding(machine::specs::Places::stray_field))]
fn has_stray(used: u8, r: Request) -> bool
    ensures { result ≡ stray_field used r }
{
    is_stray_at(used, 1, r.a)
        || is_stray_at(used, 2, r.b)
        || is_stray_at(used, 3, r.c)
        || is_stray_at(used, 4, r.e)
}

// Whether just one of partition and call is 0.
fn has_one_zero(r: Request) -> bool
    ensures { result ≡ one_zero r }
{
    fields::is_number(r.partition, 0) != fields::is_number(r.call, 0)
}

// 13, over a table of this many partitions.
fn is_malformed(size: u8, r: Request) -> bool
    ensures { (T : Table) → T.size ≡ size → result ≡ malformed T r }
{
    size == 0
        || !fields::is_between(r.partition, 0, size as u32)
        || !fields::is_between(r.call, 0, Module::CALL)
        || has_one_zero(r)
        || has_stray(fields_of(fields::number_of(r.call)), r)
}

// The time after an event, over a table of this many partitions: a tick that is taken lets t rise by one.
#[tactic(auto, unfolding(machine::specs::Decisions::checked))]
fn time_after(size: u8, t: u32, r: Request) -> Result<u32, Refusal>
    ensures { (T : Table) → T.size ≡ size → placed_as t result ≡ placed_at T t r }
{
    if is_malformed(size, r) {
        return Err(Refusal::Malformed);
    }
    if fields::number_of(r.partition) == 0 {
        if Module::END <= t {
            return Err(Refusal::TimeEnded);
        }
        return Ok(t + 1);
    }
    Ok(t)
}

// 13, and for a tick 10, over a table of this many partitions, which is all that is seen of it; a tick that is taken lets t rise by one.
pub fn place_event(size: u8, t: u32, r: Request) -> Placed
    ensures { (T : Table) → T.size ≡ size → result ≡ placed_at T t r }
{
    match time_after(size, t, r) {
        Ok(time) => Placed { code: 0, time },
        Err(why) => Placed {
            code: why.code(),
            time: t,
        },
    }
}
