// Runs a lent list of events again and again, for tests/bench. Standard input has a line whose first number is how often, a
// table, and event lines; the answers of the last run are printed.
#![tactic(auto)]

ghost use Rattle.std.specs.Prelude.{◌≡◌};
ghost use Rattle.batch.specs.Batch.{answered_list};

use executive::Executive;
use machine::{Answer, Event, EventRecord, Field, Line, Module, Numbers};
use std::io;

// The bytes that the program reads at most.
const INPUT: usize = 262144;

// The events of the list. Where the input has fewer, ticks fill it.
const EVENTS: usize = 4096;

// A list of events with their answers.
#[derive(Clone, Copy)]
struct Answered {
    records: [EventRecord; EVENTS],
}

// Lends the list.
fn run(m: Executive, list: [EventRecord; EVENTS]) -> Answered
    ensures { result.records ≡ answered_list m list }
{
    let mut records = list;
    batch::run(m, &mut records);
    Answered { records }
}

// The executives to start from, in turn: what is known of a record when the program is compiled would shorten the run.
#[derive(Clone, Copy)]
struct Starts {
    executives: [Executive; 2],
}

fn start_of(s: Starts, i: u32) -> Executive {
    s.executives[(i % 2) as usize]
}

fn run_often(s: Starts, list: Answered, rounds: u32) -> Answered {
    let mut l = list;
    for i in 0..rounds {
        l = run(start_of(s, i), l.records);
    }
    l
}

// ---------------------------------------------------------------- the input
fn record_of(n: Numbers) -> EventRecord {
    EventRecord {
        event: Event::from(n),
        answer: Answer {
            code: 0,
            value: 0,
            extra: None,
            t: 0,
            current: 0,
            running: 0,
        },
    }
}

fn tick() -> EventRecord {
    record_of(Numbers {
        n1: 0,
        n2: 0,
        n3: 0,
        n4: 0,
        n5: 0,
        n6: 0,
    })
}

fn event_at(input: &[u8], at: usize) -> EventRecord {
    match line::read_at(input, at) {
        Line::Six(n) => record_of(n),
        Line::Bad => tick(),
    }
}

fn list_at(input: &[u8], start: usize) -> Answered {
    let mut l = Answered {
        records: [tick(); EVENTS],
    };
    let mut at = start;
    for x in &mut l.records {
        *x = event_at(input, at);
        at = line::next_line(input, at);
    }
    l
}

// ---------------------------------------------------------------- the output
fn print_answer(rt: &impl Print, a: Answer) -> io::Result<()> {
    let mut out = [0u8; Module::LINE];
    let _ = line::write(&mut out, Numbers::from(a));
    rt.write_all(&out)
}

fn print_answers(rt: &impl Print, l: Answered) -> io::Result<()> {
    for x in &l.records {
        print_answer(rt, x.answer)?;
    }
    Ok(())
}

fn run_input(rt: &impl Print, rounds: u32, input: &[u8]) -> io::Result<()> {
    let o = Executive::open(input);
    let s = Starts {
        executives: [o.executive; 2],
    };
    let at = o.lines as usize * Module::LINE;
    print_answers(rt, run_often(s, list_at(input, at), rounds))
}

fn rounds_of(input: &[u8]) -> u32 {
    match line::read_at(input, 0) {
        Line::Six(n) => fields::number_of(Field::from(n.n1)),
        Line::Bad => 0,
    }
}

fn main(rt: HostRuntime) -> io::Result<()> {
    let mut input = [0u8; INPUT];
    let n = match standard_io::read_whole(rt, &mut input) {
        Ok(n) => n,
        Err(cut) => cut.length,
    };
    if n <= Module::LINE {
        return Ok(());
    }
    run_input(&rt, rounds_of(&input[..n]), &input[Module::LINE..n])
}
