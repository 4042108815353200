// The numbers of an event or a table line, as the rules look at them.
#![tactic(auto)]

ghost use Rattle.std.specs.Prelude.{◌≡◌};
ghost use Rattle.machine.specs.Fields.{is_number, between, is_duration, is_message, is_minus_one, is_timeout, is_name, number_of, time_of};

use machine::{Field, Module, Time};

pub fn is_number(f: Field, n: u32) -> bool
    ensures { result ≡ is_number n f }
{
    matches!(f, Field::Number(m) if m == n)
}

pub fn is_between(f: Field, low: u32, high: u32) -> bool
    ensures { result ≡ between low high f }
{
    matches!(f, Field::Number(n) if low <= n && n <= high)
}

pub fn is_minus_one(f: Field) -> bool
    ensures { result ≡ is_minus_one f }
{
    matches!(f, Field::MinusOne)
}

pub fn is_duration(f: Field) -> bool
    ensures { result ≡ is_duration f }
{
    is_between(f, 0, Module::DURATION)
}

// A message of a buffer or a blackboard.
pub fn is_message(f: Field) -> bool
    ensures { result ≡ is_message f }
{
    is_duration(f)
}

pub fn is_timeout(f: Field) -> bool
    ensures { result ≡ is_timeout f }
{
    is_minus_one(f) || is_duration(f)
}

pub fn is_name(f: Field) -> bool
    ensures { result ≡ is_name f }
{
    is_between(f, 1, Module::NAME)
}

pub fn number_of(f: Field) -> u32
    ensures { result ≡ number_of f }
{
    match f {
        Field::Number(n) => n,
        Field::MinusOne | Field::Other => 0,
    }
}

pub fn time_of(f: Field) -> Time
    ensures { result ≡ time_of f }
{
    match f {
        Field::Number(n) => Some(n),
        Field::MinusOne | Field::Other => None,
    }
}
