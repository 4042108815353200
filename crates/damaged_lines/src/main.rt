// Reads named cases from standard input and prints for each what table reading gives, NAME CODE VALUE LINES, and after an
// accepted table the code of each line that follows it.
#![tactic(auto)]

ghost use Rattle.std.specs.Prelude.{◌≡◌, ◌-◌, min, ◌+◌, ◌*◌, length};
ghost use Rattle.machine.specs.Line.{base, zero_digit, line_code};
ghost use Rattle.damaged_lines.specs.Container.{place_of, longest, size_of, case_at};

use machine::{Line, Module, Refusal};
use std::io;

// The bytes that the program reads at most.
const INPUT: usize = 262144;

// No case is longer.
const LONGEST: usize = 1000000;

// The bytes of a case: its name ends at name, and it is body..end.
#[derive(Clone, Copy)]
struct Case {
    name: usize,
    body: usize,
    end: usize,
}

// Where the first b from a position on stands, or the end.
fn find(s: &[u8], at: usize, b: u8) -> usize
    ensures { result ≡ place_of b s.now at }
{
    if s.len() <= at {
        return at;
    }
    match s[at..].iter().position(|x| *x == b) {
        Some(i) => at + i,
        None => s.len(),
    }
}

// What a byte is worth as a digit: nothing below '0'.
fn digit(b: u8) -> usize
    ensures { result ≡ b - zero_digit }
{
    b.saturating_sub(b'0') as usize
}

// The number with one more digit.
fn with_digit(v: usize, b: u8) -> usize
    ensures { result ≡ min (v * base + (b - zero_digit)) longest }
{
    if LONGEST <= v {
        return LONGEST;
    }
    (v * 10 + digit(b)).min(LONGEST)
}

fn size_of(s: &[u8]) -> usize
    ensures { result ≡ size_of s.now 0 }
{
    let mut v: usize = 0;
    for b in s {
        v = with_digit(v, *b);
    }
    v
}

// The case whose header is at a position.
fn case_at(input: &[u8], at: usize) -> Option<Case>
    ensures { result ≡ case_at input.now at }
{
    let name = find(input, at, b' ');
    let end = find(input, at, b'\n');
    if end <= name {
        return None;
    }
    if input.len() <= end {
        return None;
    }
    let digits = name + 1;
    let body = end + 1;
    let size = size_of(&input[digits..end]);
    if input.len() - body < size {
        return None;
    }
    Some(Case {
        name,
        body,
        end: body + size,
    })
}

fn code_of(l: Line) -> u8
    ensures { result ≡ line_code l }
{
    match l {
        Line::Six(_) => 0,
        Line::Bad => Refusal::BadLine.code(),
    }
}

fn print_number(rt: &impl Print, n: u64) -> io::Result<()> {
    print!(rt; " {n}")
}

fn print_codes(rt: &impl Print, input: &[u8], start: usize) -> io::Result<()> {
    let mut at = start;
    // Damaged lines have any length.
    while at < input.len() {
        print_number(rt, code_of(line::read_at(input, at)) as u64)?;
        at = line::next_line(input, at);
    }
    Ok(())
}

fn print_case(rt: &impl Print, name: &[u8], input: &[u8]) -> io::Result<()> {
    let r = table::read(input);
    rt.write_all(name)?;
    print_number(rt, r.code as u64)?;
    print_number(rt, r.value as u64)?;
    print_number(rt, r.lines as u64)?;
    if r.code == 0 {
        print_codes(rt, input, r.lines as usize * Module::LINE)?;
    }
    rt.write_all(b"\n")
}

fn print_no_case(rt: &impl Print) -> io::Result<()> {
    rt.write_all(b"no case\n")
}

fn print_cases(rt: &impl Print, input: &[u8]) -> io::Result<()> {
    let mut at: usize = 0;
    // A case has the length that its heading says.
    while at < input.len() {
        let Some(c) = case_at(input, at) else {
            return print_no_case(rt);
        };
        print_case(rt, &input[at..c.name], &input[c.body..c.end])?;
        at = c.end;
    }
    Ok(())
}

fn main(rt: HostRuntime) -> io::Result<()> {
    let mut input = [0u8; INPUT];
    let n = standard_io::read_whole_from(&mut rt.stdin(), &mut input).map_err(|cut| cut.error)?;
    print_cases(&rt, &input[..n])
}
