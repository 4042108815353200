// Lines of chosen numbers, written into outputs of chosen lengths: for each the answer's number, then every byte of the output, which had
// dots before.
#![tactic(auto)]

use machine::{Module, Numbers};
use std::io;

// The numbers that are tried; the last eight are out of range.
const COUNT: usize = 36;

const TRIED: [i64; COUNT] = [
    -1,
    0,
    1,
    9,
    10,
    11,
    99,
    100,
    101,
    999,
    1000,
    1001,
    9999,
    10000,
    10001,
    99999,
    100000,
    100001,
    999999,
    1000000,
    1000001,
    9999999,
    10000000,
    99999999,
    100000000,
    123456789,
    987654321,
    999999999,
    -2,
    -9,
    -10,
    -999999999,
    1000000000,
    4294967295,
    9223372036854775807,
    -9223372036854775808,
];

// The fields of a line.
const FIELDS: usize = 6;

// What is printed for a line that is not written. By number: beside the writer by itself (tools/take-writer) `machine` has no function.
const REFUSED: u8 = 11;

// A line with a number in the field at a place, counted from 0.
fn numbers(place: usize, x: i64) -> Numbers {
    let n = Numbers {
        n1: 7,
        n2: 0,
        n3: -1,
        n4: 999999999,
        n5: 12,
        n6: 345,
    };
    match place {
        0 => Numbers { n1: x, ..n },
        1 => Numbers { n2: x, ..n },
        2 => Numbers { n3: x, ..n },
        3 => Numbers { n4: x, ..n },
        4 => Numbers { n5: x, ..n },
        _ => Numbers { n6: x, ..n },
    }
}

fn print_written(rt: &impl Print, out: &mut [u8], at: usize, n: Numbers) -> io::Result<()> {
    let code = if line::write_at(out, at, n).is_ok() {
        0
    } else {
        REFUSED
    };
    print!(rt; "{code} ")?;
    rt.write_all(out)?;
    rt.write_all(b"\n")
}

// Into the middle of an output.
fn print_middle(rt: &impl Print, n: Numbers) -> io::Result<()> {
    let mut out = [b'.'; Module::LINE + 4];
    print_written(rt, &mut out, 2, n)
}

// Into an output of a line's length.
fn print_exact(rt: &impl Print, at: usize, n: Numbers) -> io::Result<()> {
    let mut out = [b'.'; Module::LINE];
    print_written(rt, &mut out, at, n)
}

// Into an output that is a byte too short.
fn print_short(rt: &impl Print, n: Numbers) -> io::Result<()> {
    let mut out = [b'.'; Module::LINE - 1];
    print_written(rt, &mut out, 0, n)
}

// Where the output just suffices and where it is too short; at its end, and past it.
fn print_ends(rt: &impl Print, n: Numbers) -> io::Result<()> {
    print_exact(rt, 0, n)?;
    print_short(rt, n)?;
    print_exact(rt, Module::LINE, n)?;
    print_exact(rt, Module::LINE + 1, n)
}

// A number in each field.
fn print_number(rt: &impl Print, x: i64) -> io::Result<()> {
    for place in 0..FIELDS {
        print_middle(rt, numbers(place, x))?;
    }
    print_ends(rt, numbers(0, x))
}

fn main(rt: HostRuntime) -> io::Result<()> {
    for x in TRIED {
        print_number(&rt, x)?;
    }
    Ok(())
}
